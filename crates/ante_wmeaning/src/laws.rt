//! What holds of the definitions themselves, whatever the code does. Each function does nothing: its contract is the law.
ghost use Rattle.ante_wmem.specs.HostCalls.{HostMeaning};
ghost use Rattle.ante_wtree.specs.Trees.{tree_of};
ghost use Rattle.ante_wmeaning.specs.Instantiation.{program_in};
ghost use Rattle.ante_wmeaning.specs.HostConditions.{HaveHostTypes};
ghost use Rattle.ante_wmeaning.specs.Soundness.{NeverStuck};
ghost use Rattle.ante_wmeaning.specs.Likeness.{ReplyAlike, RunAlike, RunUndisturbed};

use ante_wmem::Host;
use ante_wtree::one_number_a_name;
use ante_wvalid::ValidModule;

/// A run of a valid module never gets stuck.
pub fn never_stuck<H: Host>()
    ensures { NeverStuck H.allowed H.meaning }
{
    one_number_a_name();
}

/// Each function of the host's that a validated module has is of the type that hosts give it. So a host whose replies are
/// of its own functions' types meets what a run asks of the replies.
pub fn imports_have_host_types(module: &ValidModule)
    ensures { HaveHostTypes (program_in (tree_of module.now)) }
{
    one_number_a_name();
    let _tree = module.module();
}

/// Two hosts that reply alike.
pub trait AlikeHosts {
    type One;

    type Other;

    type Refusal;

    // Which hosts are like one another.
    ghost like: { Self.One → Self.Other → Type 0 };

    ghost one: { HostMeaning Self.One Self.Refusal };

    ghost other: { HostMeaning Self.Other Self.Refusal };

    // Every call has the same reply of hosts that are, and leaves such.
    ghost alike: { ReplyAlike like one other };
}

/// Hosts that reply alike run alike.
pub fn alike_hosts_run_alike<A: AlikeHosts>()
    ensures { RunAlike A.like A.one A.other }
{}

/// Every run but one that a look or want of memory ends is the run that nothing disturbs, over any host that replies alike.
pub fn runs_are_undisturbed<A: AlikeHosts>()
    ensures { RunUndisturbed A.like A.one A.other }
{}
