//! Scenarios from their bytes to their reports: the nine calls; and on two cores with a set-associative tier of 1 set of 2 ways on a
//! direct tier of 2 lines, one in which a line that is hit at level 2 pushes a modified one out, and its like without the touch by
//! which it does. What is expected was worked out by hand: a test takes no values from a program. The functions are generic over the
//! row, which makes their check shorter.
use assoc::set_associative::SetAssociative;
use direct::direct::Direct;
use machine::two_cores;
use memory::Memory;
use memory::cell::{Cell, State};
use memory::flat::Flat;
use pair::Pair;
use row::Row;
use row::one_core::Core;
use scenario::fault::Fault;
use scenario::layout::{REFERENCES, UNPLACED};
use simulator::simulate::simulate;
use std::alloc::Global;
use std::io;
use std::process::Abort;
use std::test::Fail;
use study::quote::Quote;
use tier::pile::Pile;

// A scenario, and what has to become of it: its report, and its quote.
#[derive(Clone, Copy)]
struct Told {
    text: &'static str,
    report: &'static str,
    quote: Quote,
}

const NINE: Told = Told {
    text: "weights\t0\t10\t10\t10\t100\nref\t1\t3\n\
    read\t0\t1\nfetch\t0\nresume\t0\nwrite\t0\t1\nread\t1\t1\nfetch\t1\nflush\t0\t1\nfetch\t1\nresume\t1\n",
    report: "1\twaits\t3\t0\n2\tbrought\t3\t100\n3\tread\t0\t100\n4\twrote\t1\t100\n5\twaits\t3\t100\n\
    6\trefused\t8\t100\n7\tflushed\t3\t200\n8\tbrought\t3\t300\n9\tread\t1\t300\nquote\t3\t300\t10000\n",
    quote: Quote {
        accesses: 3,
        total: 300,
        figure: Some(10_000),
    },
};

const LEAVING: Told = Told {
    text: "weights\t1\t10\t20\t40\t100\nref\t1\t2\nref\t2\t3\nref\t3\t5\nref\t4\t6\n\
    write\t0\t1\nfetch\t0\nwrite\t1\t1\nfetch\t1\nresume\t0\nflush\t0\t1\nresume\t1\nfetch\t1\n\
    write\t0\t2\nfetch\t0\nresume\t0\nread\t0\t3\nfetch\t0\nresume\t0\nwrite\t0\t4\nfetch\t0\nresume\t0\n\
    read\t0\t3\ncommit\t0\t4\ncommit\t0\t4\nread\t0\t2\ncommit\t0\t2\nfetch\t1\nresume\t1\n",
    report: "1\twaits\t2\t0\n2\tbrought\t2\t100\n3\twaits\t2\t100\n4\tbrought\t2\t200\n\
    5\twrote\t1\t201\n6\trefused\t9\t201\n7\twaits\t2\t201\n8\trefused\t8\t201\n\
    9\twaits\t3\t201\n10\tbrought\t3\t301\n11\twrote\t2\t302\n\
    12\twaits\t5\t302\n13\tbrought\t5\t402\n14\tread\t0\t403\n\
    15\twaits\t6\t403\n16\tbrought\t6\t503\n17\twrote\t3\t504\n\
    18\tread\t0\t505\n19\tcommitted\t1\t605\n20\tcommitted\t0\t605\n21\tread\t2\t715\n22\tcommitted\t1\t815\n\
    23\tbrought\t2\t915\n24\twrote\t4\t916\nquote\t7\t916\t13085\n",
    quote: Quote {
        accesses: 7,
        total: 916,
        figure: Some(13_085),
    },
};

// The same up to its seventeenth step: then nothing touches block 5, which sinks for the hit at level 2, and no line leaves.
const UNTOUCHED: Told = Told {
    text: "weights\t1\t10\t20\t40\t100\nref\t1\t2\nref\t2\t3\nref\t3\t5\nref\t4\t6\n\
    write\t0\t1\nfetch\t0\nwrite\t1\t1\nfetch\t1\nresume\t0\nflush\t0\t1\nresume\t1\nfetch\t1\n\
    write\t0\t2\nfetch\t0\nresume\t0\nread\t0\t3\nfetch\t0\nresume\t0\nwrite\t0\t4\nfetch\t0\nresume\t0\n\
    commit\t0\t4\ncommit\t0\t4\nread\t0\t2\n",
    report: "1\twaits\t2\t0\n2\tbrought\t2\t100\n3\twaits\t2\t100\n4\tbrought\t2\t200\n\
    5\twrote\t1\t201\n6\trefused\t9\t201\n7\twaits\t2\t201\n8\trefused\t8\t201\n\
    9\twaits\t3\t201\n10\tbrought\t3\t301\n11\twrote\t2\t302\n\
    12\twaits\t5\t302\n13\tbrought\t5\t402\n14\tread\t0\t403\n\
    15\twaits\t6\t403\n16\tbrought\t6\t503\n17\twrote\t3\t504\n\
    18\tcommitted\t1\t604\n19\tcommitted\t0\t604\n20\tread\t2\t614\nquote\t5\t614\t12280\n",
    quote: Quote {
        accesses: 5,
        total: 614,
        figure: Some(12_280),
    },
};

fn cell(state: State, stamp: u32) -> Cell {
    Cell { state, stamp }
}

fn core(heap: Global) -> Result<Core<Pile<SetAssociative, Direct>>, Fail> {
    let upper = SetAssociative::new(heap, 1, 2).map_err(|_| Fail::new("refused"))?;
    let lower = Direct::new(heap, 2).map_err(|_| Fail::new("refused"))?;
    Ok(Core::new(Pile::new(upper, lower)))
}

// What the study comes to, once all of its report was written.
fn outcome<R: Row + Drop, M: Memory + Drop>(
    text: &str,
    layout: &mut [u32],
    row: R,
    memory: M,
    report: &mut Vec<u8>,
) -> io::Result<Result<Quote, Fault>> {
    let (study, written) = simulate(text.as_bytes(), layout, row, memory, report);
    written?;
    Ok(study.outcome)
}

// Where the references then lie, and what the table holds that was lent.
fn tells<R: Row + Drop>(
    rt: &impl Abort,
    heap: Global,
    row: R,
    told: Told,
) -> io::Result<([u32; REFERENCES], [Cell; 16])> {
    let mut layout = [0; REFERENCES];
    let mut table = [cell(State::Stale, 7); 16];
    let mut report = Vec::new(heap);
    assert_eq!(rt;
        outcome(
            told.text,
            &mut layout,
            row,
            Flat::over(&mut table),
            &mut report
        )?,
        Ok(told.quote)
    );
    assert_eq!(rt; report.as_slice(), told.report.as_bytes());
    Ok((layout, table))
}

#[test]
fn nine_calls_are_told(rt: HostRuntime) -> Result<(), Fail> {
    let (layout, table) = tells(&rt, rt.alloc(), two_cores(rt.alloc())?, NINE)?;
    let mut placed = [UNPLACED; REFERENCES];
    placed[1] = 3;
    assert_eq!(rt; layout, placed);
    let mut left = [cell(State::Valid, 0); 16];
    left[3].stamp = 1;
    assert_eq!(rt; table, left);
    Ok(())
}

#[test]
fn a_modified_line_leaves_for_a_hit(rt: HostRuntime) -> Result<(), Fail> {
    let row = Pair::new(core(rt.alloc())?, core(rt.alloc())?);
    let (layout, table) = tells(&rt, rt.alloc(), row, LEAVING)?;
    let mut placed = [UNPLACED; REFERENCES];
    placed[1] = 2;
    placed[2] = 3;
    placed[3] = 5;
    placed[4] = 6;
    assert_eq!(rt; layout, placed);
    // block 2 was stored as it left and written again, and 3 and 6 were committed
    let mut left = [cell(State::Valid, 0); 16];
    left[2] = cell(State::Stale, 1);
    left[3] = cell(State::Valid, 2);
    left[6] = cell(State::Valid, 3);
    assert_eq!(rt; table, left);
    Ok(())
}

#[test]
fn without_a_touch_none_leaves(rt: HostRuntime) -> Result<(), Fail> {
    let row = Pair::new(core(rt.alloc())?, core(rt.alloc())?);
    let (_, table) = tells(&rt, rt.alloc(), row, UNTOUCHED)?;
    // 6 alone was committed, and 2 and 3 are modified still
    let mut left = [cell(State::Valid, 0); 16];
    left[2].state = State::Stale;
    left[3].state = State::Stale;
    left[6].stamp = 3;
    assert_eq!(rt; table, left);
    Ok(())
}
