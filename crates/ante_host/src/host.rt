//! The chain's tables as the host of one run.
ghost use Rattle.std.specs.Prelude.{◌≡◌, ◌≤◌, true, false, Some};
ghost use Rattle.ante_wmem.specs.HostCalls.{IsAnswer};
ghost use Rattle.ante_calls.specs.declared.calls.Intrinsic.TheVariants as group;
ghost use Rattle.ante_calls.specs.declared.calls.SysCall.TheVariants as sys;
ghost use Rattle.ante_calls.specs.Numbers.{intrinsic_at};
ghost use Rattle.ante_calls.specs.Views.{base_of};
ghost use Rattle.ante_execution.specs.HostLaws.{allows_less, host_falls, host_keeps};
ghost use Rattle.ante_execution.specs.Hosts.{HostView, host_call, is_send_inline, Allows, Leaves};
ghost use Rattle.ante_host.specs.Host.{Unmoved, Answers, Checked};
ghost use Rattle.ante_host.specs.Owned.{lists_of};

use crate::intrinsics::intrinsic_at;
use crate::own::Own;
use crate::sending::sent;
use ante_calls::{IndexCall, Intrinsic, RowCall, SysCall};
use ante_store::Tables;
use ante_sysapi::sys_call;
use ante_types::Failure;
use ante_wmem::{Host, HostAnswer, HostFn, Memory};
use std::alloc::Global;
use std::marker::Model;

/// The chain's tables, and what the run has of its own.
#[derive(Drop)]
pub(crate) struct RunHost<'a, 'b, 'c, T: Tables> {
    pub(crate) tables: &'a mut T,
    pub(crate) own: &'b mut Own,
    pub(crate) packed: &'c [u8],
    pub(crate) alloc: Global,
}

impl<'a, 'b, 'c, T: Tables> Model for RunHost<'a, 'b, 'c, T> {
    ghost Value = { HostView };

    ghost view = { λ h. record {
      seen = record { world = (T.stack h.tables.now).top; lists = lists_of h.own.now; run = h.own.now.run; packed = h.packed.now };
      base = base_of (T.stack h.tables.now) (T.writing h.tables.now) (T.lent h.tables.now);
      holder = (h.tables.ghost_name, h.own.ghost_name);
    } };
}

impl<T: Tables> RunHost<'_, '_, '_, T> {
    fn on_rows(
        &mut self,
        call: RowCall,
        args: &[u64],
        memory: &mut Memory,
        left: &mut u64,
    ) -> HostAnswer<Failure>
        requires allowed { Allows self.old left.old }
        ensures answer { Answers (Some (group.Row call)) args.now memory.old left.old result self.old self.new memory.new left.new }
        ensures falls { left.new ≤ left.old }
    {
        self.own
            .on_rows(call, args, memory, self.tables, self.alloc, left)
    }

    fn on_system(
        &mut self,
        call: SysCall,
        function: HostFn,
        args: &[u64],
        memory: &mut Memory,
        left: &mut u64,
    ) -> HostAnswer<Failure>
        requires allowed { Allows self.old left.old }
        requires number { intrinsic_at function.0 ≡ Some (group.Sys call) }
        ensures answer { Answers (Some (group.Sys call)) args.now memory.old left.old result self.old self.new memory.new left.new }
        ensures falls { left.new ≤ left.old }
    {
        sys_call(
            function,
            args,
            memory,
            &mut self.own.run,
            self.packed,
            self.tables,
            self.alloc,
            left,
        )
    }

    fn on_index64(
        &mut self,
        call: IndexCall,
        args: &[u64],
        memory: &mut Memory,
        left: &mut u64,
    ) -> HostAnswer<Failure>
        requires allowed { Allows self.old left.old }
        ensures answer { Answers (Some (group.Index64 call)) args.now memory.old left.old result self.old self.new memory.new left.new }
        ensures falls { left.new ≤ left.old }
    {
        self.own
            .on_index64(call, args, memory, self.tables, self.alloc, left)
    }

    fn on_index128(
        &mut self,
        call: IndexCall,
        args: &[u64],
        memory: &mut Memory,
        left: &mut u64,
    ) -> HostAnswer<Failure>
        requires allowed { Allows self.old left.old }
        ensures answer { Answers (Some (group.Index128 call)) args.now memory.old left.old result self.old self.new memory.new left.new }
        ensures falls { left.new ≤ left.old }
    {
        self.own
            .on_index128(call, args, memory, self.tables, self.alloc, left)
    }

    fn on_index256(
        &mut self,
        call: IndexCall,
        args: &[u64],
        memory: &mut Memory,
        left: &mut u64,
    ) -> HostAnswer<Failure>
        requires allowed { Allows self.old left.old }
        ensures answer { Answers (Some (group.Index256 call)) args.now memory.old left.old result self.old self.new memory.new left.new }
        ensures falls { left.new ≤ left.old }
    {
        self.own
            .on_index256(call, args, memory, self.tables, self.alloc, left)
    }

    fn make(
        &mut self,
        intrinsic: Option<Intrinsic>,
        function: HostFn,
        args: &[u64],
        memory: &mut Memory,
        left: &mut u64,
    ) -> HostAnswer<Failure>
        requires allowed { Allows self.old left.old }
        requires number { intrinsic_at function.0 ≡ intrinsic }
        ensures answer { Answers intrinsic args.now memory.old left.old result self.old self.new memory.new left.new }
        ensures falls { left.new ≤ left.old }
    {
        match intrinsic {
            Some(Intrinsic::Sys(call)) => self.on_system(call, function, args, memory, left),
            Some(Intrinsic::Row(call)) => self.on_rows(call, args, memory, left),
            Some(Intrinsic::Index64(call)) => self.on_index64(call, args, memory, left),
            Some(Intrinsic::Index128(call)) => self.on_index128(call, args, memory, left),
            Some(Intrinsic::Index256(call)) => self.on_index256(call, args, memory, left),
            None => HostAnswer::Refused(Failure::Abort),
        }
    }

    fn reply(
        &mut self,
        function: HostFn,
        args: &[u64],
        memory: &mut Memory,
        left: &mut u64,
    ) -> HostAnswer<Failure>
        requires allowed { Allows self.old left.old }
        ensures answer { IsAnswer (host_call self.old function.0 args.now memory.old left.old) (λ answer after. Unmoved self.old after)
            result self.new memory.new left.new }
        ensures falls { left.new ≤ left.old }
    {
        let intrinsic = intrinsic_at(function.0);
        let answer = self.make(intrinsic, function, args, memory, left);
        if is_send_inline(intrinsic) {
            self.checked(answer)
        } else {
            answer
        }
    }

    // Lets an action that was sent be checked.
    fn checked(&self, answer: HostAnswer<Failure>) -> HostAnswer<Failure>
        ensures { Checked self.now answer result }
    {
        match answer {
            HostAnswer::Nothing => sent(self.alloc, self.tables.store(), &self.own.run),
            other => other,
        }
    }
}

fn is_send_inline(intrinsic: Option<Intrinsic>) -> bool
    ensures other { result ≡ false → is_send_inline intrinsic ≡ false }
    ensures same { result ≡ true → intrinsic ≡ Some (group.Sys sys.SendInline) }
{
    matches!(intrinsic, Some(Intrinsic::Sys(SysCall::SendInline)))
}

impl<T: Tables> Host for RunHost<'_, '_, '_, T> {
    type Refusal = Failure;

    ghost allowed = { λ host function arguments left. Allows host left };

    ghost meaning = { host_call };

    ghost stands = { λ host function arguments memory left answer after. Leaves host after };

    fn call(
        &mut self,
        function: HostFn,
        args: &[u64],
        memory: &mut Memory,
        left: &mut u64,
    ) -> HostAnswer<Failure> {
        self.reply(function, args, memory, left)
    }

    ghost lower = { λ host function arguments left less le allows. allows_less host left less le allows };

    ghost falls = { λ host function arguments memory left. host_falls host function arguments memory left };

    ghost keeps = { λ host function arguments memory left allows. host_keeps host function arguments memory left allows };
}
