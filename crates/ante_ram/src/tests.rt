// Scripts of calls, with what stands after them written out by hand.
ghost use Rattle.std.specs.Prelude.{◌≡◌, None};

use crate::usage::{RamFault, Usage};
use ante_pack::Name;
use ante_sessions::Sessions;
use std::alloc::{AllocError, Global};
use std::process::Abort;

// One call, with whether it is to be refused.
#[derive(Clone, Copy, Debug)]
enum Step {
    Add(u64, i64, bool),
    Quota(u64, i64),
    Begin,
    Undo,
    Squash,
}

// Usage with nothing on the shelf.
#[derive(Drop)]
struct Trial {
    usage: Usage,
    ghost flat: { usage.shelf ≡ None },
}

impl Trial {
    // Makes the call, and says whether its conditions held and it answered what it is to answer.
    fn call(&mut self, alloc: Global, step: Step) -> Result<bool, AllocError> {
        match step {
            Step::Add(account, change, refused) => self.add(alloc, account, change, refused),
            Step::Quota(account, quota) => {
                match self.usage.set_quota(alloc, Name(account), quota) {
                    Ok(()) => Ok(true),
                    Err(_) => Err(AllocError),
                }
            }
            Step::Begin => self.begin(alloc),
            Step::Undo => Ok(self.undo()),
            Step::Squash => Ok(self.squash()),
        }
    }

    fn add(
        &mut self,
        alloc: Global,
        account: u64,
        change: i64,
        refused: bool,
    ) -> Result<bool, AllocError> {
        if change < 0 && self.usage.used(Name(account)) < change.unsigned_abs() {
            return Ok(false);
        }
        match self.usage.add(alloc, Name(account), change) {
            Ok(()) => Ok(!refused),
            Err(RamFault::RamTotal) => Ok(refused),
            Err(RamFault::OutOfMemory) => Err(AllocError),
        }
    }

    fn begin(&mut self, alloc: Global) -> Result<bool, AllocError> {
        if self.usage.revision() >= 1000 {
            return Ok(false);
        }
        match self.usage.begin(alloc) {
            Ok(_) => Ok(true),
            Err(refused) => Err(refused),
        }
    }

    fn undo(&mut self) -> bool {
        if self.usage.sessions() > 0 {
            self.usage.undo();
            true
        } else {
            false
        }
    }

    fn squash(&mut self) -> bool {
        if self.usage.sessions() > 1 {
            self.usage.squash();
            true
        } else {
            false
        }
    }

    // The accounts in order with their usage and quota, and then the first that is over.
    fn write(&self, text: &mut String) -> Result<(), AllocError> {
        let mut next = self.usage.next_usage(None);
        for _ in 0..100 {
            let Some((account, used, quota)) = next else {
                break
            };
            let number = account.0;
            write!(text, "{number}:{used}/{quota} ")?;
            next = self.usage.next_usage(Some(account));
        }
        if self.usage.sessions() > 0 {
            match self.usage.first_over() {
                Some((account, used, quota)) => {
                    let number = account.0;
                    write!(text, "over {number}:{used}/{quota}")?;
                }
                None => text.push_str("over none")?,
            }
        }
        Ok(())
    }
}

fn check(rt: &impl Abort, alloc: Global, steps: &[Step], wanted: &str) -> Result<(), AllocError> {
    let mut trial = Trial {
        usage: Usage::new(alloc, 5),
    };
    for step in steps {
        assert!(rt; trial.call(alloc, *step)?, "{step:?} before {wanted}");
    }
    let mut text = String::new(alloc);
    trial.write(&mut text)?;
    assert_eq!(rt; text.as_str(), wanted);
    Ok(())
}

const MOST: i64 = 4_611_686_018_427_387_904;

const LAST: u64 = 18_446_744_073_709_551_615;

#[test]
fn a_script_leaves_what_is_written_beside_it(rt: HostRuntime) -> Result<(), AllocError> {
    use Step::*;
    let alloc = rt.alloc();

    // A row in a session, a second one, the first one gone, and all gone.
    check(
        &rt,
        alloc,
        &[Begin, Add(1, 240, false)],
        "1:240/-1 over none",
    )?;
    check(
        &rt,
        alloc,
        &[
            Add(1, 240, false),
            Begin,
            Add(2, 120, false),
            Add(1, -128, false),
        ],
        "1:112/-1 2:120/-1 over none",
    )?;
    check(
        &rt,
        alloc,
        &[
            Begin,
            Add(1, 112, false),
            Add(2, 120, false),
            Add(1, -112, false),
            Add(2, -120, false),
        ],
        "over none",
    )?;

    // The sum of all accounts is what may not pass 2^62, and undo takes it back.
    check(
        &rt,
        alloc,
        &[
            Add(0, MOST - 1, false),
            Add(LAST, 2, true),
            Add(LAST, 1, false),
            Add(7, 1, true),
            Add(7, 0, false),
        ],
        "0:4611686018427387903/-1 18446744073709551615:1/-1 ",
    )?;
    check(
        &rt,
        alloc,
        &[
            Add(1, 5, false),
            Begin,
            Add(2, MOST - 5, false),
            Add(1, 1, true),
            Undo,
            Add(1, MOST - 5, false),
            Add(2, 1, true),
        ],
        "1:4611686018427387904/-1 ",
    )?;

    // Over a quota only with more than before the session; a quota alone keeps its entry.
    check(
        &rt,
        alloc,
        &[
            Quota(3, 10),
            Add(3, 11, false),
            Add(4, 5, false),
            Begin,
            Quota(4, 4),
            Quota(9, 0),
        ],
        "3:11/10 4:5/4 9:0/0 over none",
    )?;
    check(
        &rt,
        alloc,
        &[
            Quota(3, 10),
            Add(3, 11, false),
            Begin,
            Add(3, -1, false),
            Add(5, 7, false),
            Quota(5, 6),
            Add(6, 9, false),
            Quota(6, 0),
        ],
        "3:10/10 5:7/6 6:9/0 over 5:7/6",
    )?;
    check(
        &rt,
        alloc,
        &[
            Quota(3, 10),
            Begin,
            Add(3, 10, false),
            Begin,
            Add(3, 1, false),
            Squash,
            Quota(2, 8),
            Quota(2, -1),
        ],
        "3:11/10 over 3:11/10",
    )?;
    Ok(())
}
