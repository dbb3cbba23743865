//! Each allocation of a course fails in turn: the act that lacks it changes nothing, and is done when it comes again.

use crate::tests::acts::{Act, COURSE, DELAY, do_act, do_plainly, new};
use crate::tests::model::Plain;
use crate::tests::pair::{admit_alike, look_alike};
use group_coordinator::Coordinator;
use refusing_alloc::Refusing;
use std::alloc::{AllocError, Allocator};
use std::test::Fail;

/// More allocations than the course asks for.
const MOST: u64 = 4_000;

/// What came of an act.
#[derive(Clone, Copy, PartialEq)]
enum Came {
    /// Both did it, and have the same.
    Done,
    /// It lacked memory, and changed nothing; it was done then.
    Lacked,
    /// It went wrong.
    Wrong,
}

/// An act by both.
fn both<A: Allocator + Copy, B: Allocator + Copy>(
    real: &mut Coordinator<A>,
    alloc: A,
    plain: &mut Plain<B>,
    plain_alloc: B,
    next: Act,
) -> Result<Came, AllocError> {
    let mut came = Came::Done;
    let first = match do_act(
        real,
        alloc,
        b"0123456789abcdefghijklmnopqrstuvwxyzABCDEFGHIJ",
        next,
    ) {
        Ok(code) => Ok(code),
        Err(AllocError) => {
            came = Came::Lacked;
            if !look_alike(real, plain) || !admit_alike(real, plain, plain_alloc)? {
                return Ok(Came::Wrong);
            }
            do_act(
                real,
                alloc,
                b"0123456789abcdefghijklmnopqrstuvwxyzABCDEFGHIJ",
                next,
            )
        }
    };
    let code = do_plainly(plain, plain_alloc, next)?;
    let same = first.is_ok_and(|other| other == code) && look_alike(real, plain);
    if same { Ok(came) } else { Ok(Came::Wrong) }
}

/// The course by both: how many acts lacked memory, or the number of the first one that went wrong.
fn course<A: Allocator + Copy, B: Allocator + Copy>(
    alloc: A,
    plain_alloc: B,
) -> Result<Result<u64, u64>, AllocError> {
    let mut real = new(alloc, false);
    let mut plain = Plain::new(plain_alloc, DELAY, false);
    let mut lacked = 0u64;
    let mut number = 0u64;
    for next in COURSE.iter() {
        match both(&mut real, alloc, &mut plain, plain_alloc, *next)? {
            Came::Done => {}
            Came::Lacked => lacked = lacked.saturating_add(1),
            Came::Wrong => return Ok(Err(number)),
        }
        number = number.saturating_add(1);
    }
    Ok(Ok(lacked))
}

#[test]
fn a_failed_allocation_changes_nothing(rt: HostRuntime) -> Result<(), Fail> {
    let mut passed = false;
    for refused in 1..MOST {
        let heap = Refusing::new(rt.alloc(), refused);
        let came = course(&heap, rt.alloc())?;
        passed = heap.calls() < refused;
        assert_eq!(rt; came, Ok(u64::from(!passed)), "allocation {refused}");
        if passed {
            break;
        }
    }
    assert!(rt; passed);
    Ok(())
}
