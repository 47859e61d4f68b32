//! Main memories on examples, and at the limits of their sizes.
use interleaved::Interleaved;
use memory::Memory;
use memory::cell::{Cell, State};
use memory::flat::{Flat, RefusedTable};
use std::test::Fail;
use window::Window;

// A call of a memory and what it has to answer.
// Data and not closures, so that a test reads as a table, and one table can be played on any kind.
#[derive(Clone, Copy)]
enum Step {
    // The stamp, or nothing of a stale block.
    Ask(u16, Option<u32>),
    Store(u16, u32),
    Stale(u16),
    // No call on this block goes through: the number of the refusal.
    Refused(u16, u8),
}

fn agrees<M: Memory>(memory: &mut M, step: Step) -> bool {
    match step {
        Step::Ask(block, stamp) => memory.ask(block) == Ok(stamp),
        Step::Store(block, stamp) => memory.store(block, stamp).is_ok(),
        Step::Stale(block) => memory.stale(block).is_ok(),
        Step::Refused(block, number) => refuses(memory, block, number),
    }
}

fn refuses<M: Memory>(memory: &mut M, block: u16, number: u8) -> bool {
    memory.ask(block).map_err(u8::from) == Err(number)
        && memory.store(block, 1).map_err(u8::from) == Err(number)
        && memory.stale(block).map_err(u8::from) == Err(number)
}

// The first step that answers otherwise, if there is one. Of any tier or memory it would take a closure with a precondition.
fn first_wrong<M: Memory>(memory: &mut M, steps: &[Step]) -> Option<usize> {
    steps.iter().position(|step| !agrees(memory, *step))
}

fn cell(state: State, stamp: u32) -> Cell {
    Cell { state, stamp }
}

#[test]
fn flat_keeps_its_table(rt: HostRuntime) {
    let old = cell(State::Stale, 7);
    let mut table = [old; 3];
    let steps = [
        Step::Ask(1, None),
        Step::Store(1, 5),
        Step::Ask(1, Some(5)),
        Step::Store(2, 6),
        Step::Stale(2),
        Step::Ask(2, None),
        Step::Refused(3, 6),
    ];
    assert_eq!(rt; first_wrong(&mut Flat::over(&mut table), &steps), None);
    // a cell made stale keeps its stamp, and a cell that no call named is as it was
    assert_eq!(rt; (table[0].stamp, table[1].stamp, table[2].stamp), (7, 5, 6));
}

// The size of the memory over a table, and the number of the refusal, if there is one.
fn verdict(table: &mut [Cell]) -> (u32, Option<u8>) {
    match Flat::new(table) {
        Ok(memory) => (memory.size(), None),
        Err(RefusedTable { refusal, memory }) => (memory.size(), Some(u8::from(refusal))),
    }
}

#[test]
fn tables_are_limited(rt: HostRuntime) -> Result<(), Fail> {
    for (cells, size, number) in [
        (0, 0, Some(13)),
        (1, 1, None),
        (4096, 4096, None),
        (4097, 0, Some(13)),
    ] {
        let mut table: Vec<Cell> = vec![in rt.alloc(); cell(State::Stale, 7); cells]?;
        assert_eq!(rt; verdict(table.as_mut_slice()), (size, number));
    }
    Ok(())
}

#[test]
fn window_is_cut_short(rt: HostRuntime) {
    let mut table = [cell(State::Stale, 7); 6];
    let mut window = Window::new(Flat::over(&mut table), 4, 10);
    assert_eq!(rt; window.size(), 2);
    let steps = [Step::Store(1, 9), Step::Ask(0, None), Step::Refused(2, 6)];
    assert_eq!(rt; first_wrong(&mut window, &steps), None);
    let mut below = window.into_below();
    let steps = [Step::Ask(5, Some(9)), Step::Ask(4, None)];
    assert_eq!(rt; first_wrong(&mut below, &steps), None);
    let mut none = Window::new(below, u32::MAX, u32::MAX);
    assert_eq!(rt; first_wrong(&mut none, &[Step::Refused(0, 6)]), None);
}

#[test]
fn interleaved_takes_turns(rt: HostRuntime) {
    let mut first = [cell(State::Stale, 7); 3];
    let mut second = [cell(State::Stale, 7); 2];
    let mut both = Interleaved::new(Flat::over(&mut first), Flat::over(&mut second));
    assert_eq!(rt; both.size(), 4);
    let steps = [
        Step::Store(2, 1),
        Step::Store(3, 2),
        Step::Stale(2),
        Step::Refused(4, 6),
    ];
    assert_eq!(rt; first_wrong(&mut both, &steps), None);
    let (mut even, mut odd) = both.into_parts();
    let steps = [Step::Ask(1, None), Step::Ask(2, None)];
    assert_eq!(rt; first_wrong(&mut even, &steps), None);
    assert_eq!(rt; first_wrong(&mut odd, &[Step::Ask(1, Some(2))]), None);
}
