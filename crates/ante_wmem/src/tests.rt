//! A small host, which shows that the trait can be met, and what the calls answer with ample memory.
ghost use Rattle.std.specs.Prelude.{◌≡◌, ◌+◌, ◌-◌, ◌^◌, ◌<◌, ◌==◌, if◌then◌else◌};
ghost use Rattle.std.proofs.Common.{arith, refl};
ghost use Rattle.ante_wmem.specs.HostCalls.{value, nothing, refused, step_limit};
ghost use Rattle.ante_wmem.specs.Keeping.{counted};
ghost use Rattle.ante_wmem.specs.Linear.{is_inside, overwritten, low_bytes};

use crate::limits::MOST_MEMORY_PAGES;
use crate::{Host, HostAnswer, HostFn, Memory, OutOfBounds, Width};
use std::alloc::{AllocError, Global};
use std::test::Fail;

/// Function 0 counts its calls and answers the count, any other writes the count into the first byte. Each takes a step.
#[derive(Drop)]
struct Counter {
    calls: u64,
}

impl Host for Counter {
    type Refusal = u32;

    ghost allowed = { λ host function arguments left. host.calls + left < 2 ^ 64 };

    ghost meaning = { λ host function arguments memory left.
        if left == 0 then record { reply = step_limit; left = 0 }
        else (if function == 0 then record { reply = value (host.calls + 1) (record host { calls = host.calls + 1 }) memory; left = left - 1 }
        else (if is_inside memory.bytes 0 1 then record { reply = nothing host (record memory { bytes = overwritten memory.bytes 0 (low_bytes 1 host.calls) }); left = left - 1 }
        else record { reply = refused function; left = left - 1 })) };

    ghost stands = { λ host function arguments memory left answer after. after ≡ host };

    fn call(
        &mut self,
        function: HostFn,
        args: &[u64],
        memory: &mut Memory,
        left: &mut u64,
    ) -> HostAnswer<u32> {
        if *left == 0 {
            return HostAnswer::StepLimit;
        }
        *left -= 1;
        if function.0 == 0 {
            self.calls += 1;
            return HostAnswer::Value(self.calls);
        }
        match memory.store(0, 0, Width::One, self.calls) {
            Ok(()) => HostAnswer::Nothing,
            Err(OutOfBounds) => HostAnswer::Refused(function.0),
        }
    }

    ghost lower = { λ host function arguments left less le holds. Prim.omega arith };

    ghost falls = { λ host function arguments memory left. Prim.grind arith };

    ghost keeps = { λ host function arguments memory left holds. counted (left == 0) (function == 0) (is_inside memory.bytes 0 1) function left host
        (record host { calls = host.calls + 1 }) (λ h. h.calls) memory (record memory { bytes = overwritten memory.bytes 0 (low_bytes 1 host.calls) }) refl holds };
}

const NUMBER: u64 = 0x0123_4567_89AB_CDEF;

/// Stores the number and loads it again: what comes back, if the range lies in the memory.
fn round_trip(memory: &mut Memory, address: u32, offset: u32, width: Width) -> Option<u64> {
    memory.store(address, offset, width, NUMBER).ok()?;
    memory.load(address, offset, width).ok()
}

#[test]
fn loads_and_stores_reach_the_last_byte(rt: HostRuntime) -> Result<(), Fail> {
    let mut memory = Memory::new(rt.alloc(), 1, 1)?;
    for (address, offset, width, back) in [
        (0, 0, Width::Eight, Some(NUMBER)),
        (65_535, 0, Width::One, Some(0xEF)),
        (65_536, 0, Width::One, None),
        (65_534, 0, Width::Two, Some(0xCDEF)),
        (65_535, 0, Width::Two, None),
        (65_532, 0, Width::Four, Some(0x89AB_CDEF)),
        (65_533, 0, Width::Four, None),
        (65_528, 0, Width::Eight, Some(NUMBER)),
        (65_529, 0, Width::Eight, None),
        (1, 65_534, Width::One, Some(0xEF)),
        (1, 65_535, Width::One, None),
        (1, u32::MAX, Width::One, None),
        (u32::MAX, 1, Width::One, None),
        (u32::MAX, u32::MAX, Width::Eight, None),
    ] {
        assert_eq!(rt;
            round_trip(&mut memory, address, offset, width),
            back,
            "at {address} and {offset}"
        );
    }
    assert_eq!(rt;
        memory.read_bytes(0, 8)?,
        [0xEF, 0xCD, 0xAB, 0x89, 0x67, 0x45, 0x23, 0x01].as_slice()
    );
    Ok(())
}

#[test]
fn ranges_of_no_bytes_lie_anywhere(rt: HostRuntime) -> Result<(), Fail> {
    let mut memory = Memory::new(rt.alloc(), 1, 1)?;
    for (at, count, there) in [
        (65_535, 1, true),
        (65_535, 2, false),
        (65_536, 0, true),
        (65_536, 1, false),
        (u32::MAX, 0, true),
        (u32::MAX, 1, false),
        (0, 65_536, true),
        (0, 65_537, false),
    ] {
        assert_eq!(rt;
            memory.read_bytes(at, count).is_ok(),
            there,
            "{count} at {at}"
        );
    }
    assert!(rt; memory.write_bytes(65_534, &[1, 2]).is_ok());
    assert!(rt; memory.write_bytes(65_535, &[3, 4]).is_err());
    assert!(rt; memory.write_bytes(u32::MAX, &[]).is_ok());
    assert_eq!(rt; memory.read_bytes(65_533, 3)?, [0, 1, 2].as_slice());
    Ok(())
}

#[test]
fn ranges_are_copied(rt: HostRuntime) -> Result<(), Fail> {
    let mut memory = Memory::new(rt.alloc(), 1, 1)?;
    memory.write_bytes(0, &[1, 2, 3, 4, 5, 6])?;
    for (to, from, count, done) in [
        (2, 0, 4, true),
        (0, 1, 4, true),
        (65_534, 4, 2, true),
        (65_534, 0, 3, false),
        (0, 65_534, 3, false),
        (65_537, u32::MAX, 0, true),
    ] {
        assert_eq!(rt;
            memory.copy_bytes(to, from, count).is_ok(),
            done,
            "{count} from {from} to {to}"
        );
    }
    assert_eq!(rt; memory.read_bytes(0, 6)?, [2, 1, 2, 3, 3, 4].as_slice());
    assert_eq!(rt; memory.read_bytes(65_533, 3)?, [0, 3, 4].as_slice());
    Ok(())
}

#[test]
fn ranges_are_filled(rt: HostRuntime) -> Result<(), Fail> {
    let mut memory = Memory::new(rt.alloc(), 1, 1)?;
    for (at, byte, count, done) in [
        (65_532, 7, 4, true),
        (65_533, 8, 2, true),
        (65_533, 9, 4, false),
        (u32::MAX, 9, 0, true),
        (u32::MAX, 9, 1, false),
    ] {
        assert_eq!(rt;
            memory.fill_bytes(at, byte, count).is_ok(),
            done,
            "{count} at {at}"
        );
    }
    assert_eq!(rt; memory.read_bytes(65_531, 5)?, [0, 7, 8, 8, 7].as_slice());
    Ok(())
}

#[test]
fn growth_stops_at_the_most(rt: HostRuntime) -> Result<(), Fail> {
    let mut memory = Memory::new(rt.alloc(), 1, MOST_MEMORY_PAGES)?;
    memory.write_bytes(65_535, &[7])?;
    for (pages, answer, size) in [
        (0, 1, 1),
        (528, u32::MAX, 1),
        (2, 1, 3),
        (u32::MAX, u32::MAX, 3),
        (525, 3, 528),
        (1, u32::MAX, 528),
        (0, 528, 528),
    ] {
        assert_eq!(rt; memory.grow(rt.alloc(), pages)?, answer, "{pages}");
        assert_eq!(rt; memory.pages(), size, "{pages}");
    }
    assert_eq!(rt; memory.most(), 528);
    assert_eq!(rt; memory.read_bytes(65_535, 2)?, [7, 0].as_slice());
    assert_eq!(rt; memory.load(34_603_007, 0, Width::One).ok(), Some(0));
    assert_eq!(rt; memory.load(34_603_008, 0, Width::One).ok(), None);
    Ok(())
}

/// Whether the memory grows so often by a page, each time answering the size before.
fn grows_by_pages(memory: &mut Memory, alloc: Global, steps: u32) -> Result<bool, AllocError> {
    for _ in 0..steps {
        let before = memory.pages();
        if memory.grow(alloc, 1)? != before {
            return Ok(false);
        }
    }
    Ok(true)
}

#[test]
fn growth_goes_page_by_page(rt: HostRuntime) -> Result<(), Fail> {
    let mut memory = Memory::new(rt.alloc(), 1, MOST_MEMORY_PAGES)?;
    assert!(rt; grows_by_pages(&mut memory, rt.alloc(), MOST_MEMORY_PAGES - 1)?);
    assert_eq!(rt; memory.pages(), MOST_MEMORY_PAGES);
    Ok(())
}

#[test]
fn a_host_answers_and_pays(rt: HostRuntime) -> Result<(), Fail> {
    let mut memory = Memory::new(rt.alloc(), 1, 1)?;
    let mut host = Counter { calls: 0 };
    let mut left = 4;
    assert!(rt;
        matches!(
            host.call(HostFn(0), &[], &mut memory, &mut left),
            HostAnswer::Value(1)
        )
    );
    assert_eq!(rt; left, 3);
    left -= 1;
    assert!(rt;
        matches!(
            host.call(HostFn(1), &[], &mut memory, &mut left),
            HostAnswer::Nothing
        )
    );
    assert_eq!(rt; left, 1);
    left -= 1;
    assert!(rt;
        matches!(
            host.call(HostFn(0), &[], &mut memory, &mut left),
            HostAnswer::StepLimit
        )
    );
    assert_eq!(rt; left, 0);
    assert_eq!(rt; memory.load(0, 0, Width::One).ok(), Some(1));
    Ok(())
}
