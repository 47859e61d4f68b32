//! Tiers and piles on examples, and at the limits of their sizes.
use crate::free_running::FreeRunning;
use assoc::set_associative::SetAssociative;
use direct::direct::Direct;
use parts::line::Line;
use parts::mark::Mark;
use parts::refusal::BuildError;
use ranked::queue::Queue;
use std::alloc::Global;
use std::test::Fail;
use tier::Tier;
use tier::pile::Pile;

// A call of a tier and what it has to answer; block n is put as shared with stamp n.
// Data and not closures, so that a test reads as a table, and one table can be played on any kind.
#[derive(Clone, Copy)]
enum Step {
    // The block that is given out.
    Put(u16, Option<u16>),
    // The number of the refusal.
    PutRefused(u16, u8),
    Look(u16, Option<(u32, u32, u32)>),
    Take(u16, Option<(u32, u32, u32)>),
    // To modified with stamp 9; or the number of the refusal.
    Change(u16, Result<(), u8>),
    Touch(u16, Result<(), u8>),
}

fn shared(block: u16) -> Line {
    Line {
        block,
        mark: Mark::Shared,
        stamp: u32::from(block),
    }
}

fn modified(block: u16) -> Line {
    Line {
        block,
        mark: Mark::Modified,
        stamp: 9,
    }
}

fn agrees<T: Tier>(tier: &mut T, step: Step) -> bool {
    match step {
        Step::Put(block, out) => {
            tier.put(shared(block))
                .map(|left| left.map(|line| line.block))
                == Ok(out)
        }
        Step::PutRefused(block, number) => tier.put(modified(block)).map_err(u8::from)
            == Err(number),
        Step::Look(block, shown) => tier.look(block) == shown,
        Step::Take(block, shown) => tier.take(block) == shown,
        Step::Change(block, answer) => tier.change(modified(block)).map_err(u8::from) == answer,
        Step::Touch(block, answer) => tier.touch(block).map_err(u8::from) == answer,
    }
}

// The first step that answers otherwise, if there is one. Of any tier or memory it would take a closure with a precondition.
fn first_wrong<T: Tier>(tier: &mut T, steps: &[Step]) -> Option<usize> {
    steps.iter().position(|step| !agrees(tier, *step))
}

fn direct(heap: Global, lines: usize) -> Result<Direct, Fail> {
    Direct::new(heap, lines).map_err(|_| Fail::new("refused"))
}

fn queue(heap: Global, lines: usize) -> Result<Queue, Fail> {
    Queue::new(heap, lines).map_err(|_| Fail::new("refused"))
}

fn sets(heap: Global, sets: usize, ways: usize) -> Result<SetAssociative, Fail> {
    SetAssociative::new(heap, sets, ways).map_err(|_| Fail::new("refused"))
}

#[test]
fn direct_gives_out_what_its_line_holds(rt: HostRuntime) -> Result<(), Fail> {
    let steps = [
        Step::Put(0, None),
        Step::Put(1, None),
        Step::Put(2, Some(0)),
        Step::Look(0, None),
        Step::Look(2, Some((0, 2, 1))),
    ];
    assert_eq!(rt; first_wrong(&mut direct(rt.alloc(), 2)?, &steps), None);
    Ok(())
}

#[test]
fn set_gives_out_the_least_recently_used(rt: HostRuntime) -> Result<(), Fail> {
    let steps = [
        Step::Put(0, None),
        Step::Put(1, None),
        Step::Touch(0, Ok(())),
        Step::Put(2, Some(1)),
        // a look and a change are no use
        Step::Look(0, Some((0, 0, 1))),
        Step::Change(0, Ok(())),
        Step::Put(3, Some(0)),
    ];
    assert_eq!(rt; first_wrong(&mut sets(rt.alloc(), 1, 2)?, &steps), None);
    Ok(())
}

#[test]
fn queue_gives_out_the_oldest(rt: HostRuntime) -> Result<(), Fail> {
    let steps = [
        Step::Put(0, None),
        Step::Put(1, None),
        Step::Touch(0, Ok(())),
        Step::Put(2, Some(0)),
        Step::Take(1, Some((0, 1, 1))),
        Step::Put(3, None),
    ];
    assert_eq!(rt; first_wrong(&mut queue(rt.alloc(), 2)?, &steps), None);
    Ok(())
}

#[test]
fn pile_sinks_and_gives_out(rt: HostRuntime) -> Result<(), Fail> {
    let mut pile = Pile::new(direct(rt.alloc(), 1)?, queue(rt.alloc(), 1)?);
    let steps = [
        Step::Put(0, None),
        Step::Put(1, None),
        Step::Put(2, Some(0)),
        Step::Look(1, Some((0, 1, 2))),
        Step::PutRefused(2, 10),
        Step::PutRefused(1, 10),
        Step::Change(1, Ok(())),
        Step::Take(1, Some((1, 9, 2))),
        Step::Take(1, None),
        Step::Change(1, Err(11)),
        Step::Touch(1, Err(11)),
        Step::Touch(2, Ok(())),
    ];
    assert_eq!(rt; first_wrong(&mut pile, &steps), None);
    pile.clear();
    assert_eq!(rt; pile.look(2), None);
    Ok(())
}

// The fifth level counts as the fourth.
#[test]
fn five_levels_show_as_four(rt: HostRuntime) -> Result<(), Fail> {
    let lowest = Pile::new(direct(rt.alloc(), 1)?, direct(rt.alloc(), 1)?);
    let lower = Pile::new(direct(rt.alloc(), 1)?, lowest);
    let upper = Pile::new(direct(rt.alloc(), 1)?, lower);
    let mut five = Pile::new(direct(rt.alloc(), 1)?, upper);
    let steps = [
        Step::Put(0, None),
        Step::Put(1, None),
        Step::Put(2, None),
        Step::Put(3, None),
        Step::Put(4, None),
        Step::Look(0, Some((0, 0, 4))),
    ];
    assert_eq!(rt; first_wrong(&mut five, &steps), None);
    Ok(())
}

// The turn to leave passes with every call but look: the first line's after an even number of them, else the second's.
#[test]
fn free_running_moves_on(rt: HostRuntime) {
    let steps = [
        Step::Put(0, None),
        Step::Put(1, None),
        Step::PutRefused(0, 10),
        Step::Put(2, Some(1)),
        Step::Take(5, None),
        Step::Put(3, Some(2)),
        Step::Touch(7, Err(11)),
        Step::Look(3, Some((0, 3, 1))),
        Step::Put(4, Some(3)),
        Step::Change(7, Err(11)),
        Step::Change(4, Ok(())),
        Step::Put(5, Some(0)),
        Step::Touch(4, Ok(())),
        Step::Take(5, Some((0, 5, 1))),
        // a line that was freed serves the next put
        Step::Put(6, None),
        Step::Look(4, Some((1, 9, 1))),
    ];
    let mut tier = FreeRunning::new();
    assert_eq!(rt; first_wrong(&mut tier, &steps), None);
    tier.clear();
    assert_eq!(rt; tier.look(4), None);
    // fourteen calls, the clear and two puts: an odd number
    let steps = [
        Step::Put(0, None),
        Step::Put(1, None),
        Step::Put(2, Some(1)),
    ];
    assert_eq!(rt; first_wrong(&mut tier, &steps), None);
}

// A pile clears its parts, which passes the turn on; it refuses a put without telling its upper tier, and tells both of a take.
#[test]
fn free_running_on_direct(rt: HostRuntime) -> Result<(), Fail> {
    let mut pile = Pile::new(FreeRunning::new(), direct(rt.alloc(), 1)?);
    let steps = [
        Step::Put(0, None),
        Step::Put(1, None),
        Step::Put(2, None),
        Step::Look(1, Some((0, 1, 2))),
        Step::Take(9, None),
        Step::Put(3, Some(1)),
        Step::Look(2, Some((0, 2, 2))),
        Step::PutRefused(3, 10),
        Step::PutRefused(2, 10),
        Step::Put(4, Some(2)),
        Step::Look(0, Some((0, 0, 2))),
        Step::Look(3, Some((0, 3, 1))),
    ];
    assert_eq!(rt; first_wrong(&mut pile, &steps), None);
    Ok(())
}

// The number of a constructor's refusal, if it refuses. The tier that comes with it has to have just one line.
fn refusal<T: Tier + Drop>(answer: Result<T, BuildError<T>>) -> Result<Option<u8>, Fail> {
    let Err(error) = answer else {
        return Ok(None);
    };
    let number = error.number();
    let mut tier = error.into_tier()?;
    let steps = [Step::Put(0, None), Step::Put(1, Some(0))];
    if first_wrong(&mut tier, &steps).is_some() {
        return Err(Fail::new("not just one line"));
    }
    Ok(number)
}

#[test]
fn lines_are_limited(rt: HostRuntime) -> Result<(), Fail> {
    for (lines, number) in [(0, Some(12)), (1, None), (64, None), (65, Some(12))] {
        assert_eq!(rt; refusal(Direct::new(rt.alloc(), lines))?, number);
    }
    for (lines, number) in [(0, Some(12)), (1, None), (16, None), (17, Some(12))] {
        assert_eq!(rt; refusal(Queue::new(rt.alloc(), lines))?, number);
    }
    Ok(())
}

#[test]
fn sets_are_limited(rt: HostRuntime) -> Result<(), Fail> {
    for (sets, ways, number) in [
        (0, 1, Some(12)),
        (1, 0, Some(12)),
        (16, 4, None),
        (17, 4, Some(12)),
        (16, 5, Some(12)),
    ] {
        assert_eq!(rt;
            refusal(SetAssociative::new(rt.alloc(), sets, ways))?,
            number
        );
    }
    Ok(())
}
