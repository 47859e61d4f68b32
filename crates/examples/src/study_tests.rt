//! The nine calls over a lent table, two small figures, and a study that is refused. The functions are generic over the row, which makes their check shorter.
use lent_study::simulate_in_table;
use machine::two_cores;
use memory::cell::{Cell, State};
use protocol::answer::Answer;
use protocol::call::Call;
use protocol::refusal::Refusal;
use protocol::weights::Prices;
use row::Row;
use std::process::Abort;
use std::test::Fail;
use study::quote::Quote;
use study::turn::{Played, Turn};

const OLD: Cell = Cell {
    state: State::Stale,
    stamp: 7,
};

const NEW: Cell = Cell {
    state: State::Valid,
    stamp: 0,
};

// A call, and what has to become of it.
fn turn(call: Call, answer: Result<Answer, Refusal>, total: u64) -> Turn {
    let played = Some(Played { answer, total });
    Turn { call, played }
}

// The nine calls of docs/SCENARIO.md, as they are answered there: a test takes no values from a program.
fn nine<R: Row + Drop>(rt: &impl Abort, row: R) {
    let expected = [
        turn(Call::Read(0, 3), Ok(Answer::Waits(3)), 0),
        turn(Call::Fetch(0), Ok(Answer::Brought(3)), 100),
        turn(Call::Resume(0), Ok(Answer::Read(0)), 100),
        turn(Call::Write(0, 3), Ok(Answer::Wrote(1)), 100),
        turn(Call::Read(1, 3), Ok(Answer::Waits(3)), 100),
        turn(Call::Fetch(1), Err(Refusal::StaleBlock), 100),
        turn(Call::Flush(0, 3), Ok(Answer::Flushed(3)), 200),
        turn(Call::Fetch(1), Ok(Answer::Brought(3)), 300),
        turn(Call::Resume(1), Ok(Answer::Read(1)), 300),
    ];
    let mut schedule = expected;
    for turn in &mut schedule {
        turn.played = None;
    }
    let mut table = [OLD; 16];
    let prices = Prices {
        w1: 0,
        w2: 10,
        w3: 10,
        w4: 10,
        wm: 100,
    };
    let expected_quote = Quote {
        accesses: 3,
        total: 300,
        figure: Some(10_000),
    };
    assert_eq!(rt;
        simulate_in_table(row, &mut table, prices, &mut schedule),
        Ok(expected_quote)
    );
    assert_eq!(rt; schedule, expected);
    // the table that was lent
    let mut left = [NEW; 16];
    left[3].stamp = 1;
    assert_eq!(rt; table, left);
}

// Three accesses, one of them at level 2 for 1: a third, rounded down.
fn a_third<R: Row + Drop>(rt: &impl Abort, row: R) {
    let mut table = [OLD; 16];
    let mut schedule = [
        Turn::new(Call::Read(0, 0)),
        Turn::new(Call::Fetch(0)),
        Turn::new(Call::Resume(0)),
        Turn::new(Call::Read(0, 2)),
        Turn::new(Call::Fetch(0)),
        Turn::new(Call::Resume(0)),
        Turn::new(Call::Read(0, 0)),
    ];
    let prices = Prices {
        w2: 1,
        ..Prices::default()
    };
    let expected_quote = Quote {
        accesses: 3,
        total: 1,
        figure: Some(33),
    };
    assert_eq!(rt;
        simulate_in_table(row, &mut table, prices, &mut schedule),
        Ok(expected_quote)
    );
}

// Without accesses there is no mean.
fn no_access<R: Row + Drop>(rt: &impl Abort, row: R) {
    let expected_quote = Quote {
        accesses: 0,
        total: 0,
        figure: None,
    };
    assert_eq!(rt;
        simulate_in_table(row, &mut [OLD; 2], Prices::default(), &mut []),
        Ok(expected_quote)
    );
}

// A study that is refused leaves table and schedule as they were.
fn too_dear<R: Row + Drop>(rt: &impl Abort, row: R) {
    let mut table = [OLD; 2];
    let mut schedule = [Turn::new(Call::Read(0, 0))];
    let prices = Prices {
        wm: 1001,
        ..Prices::default()
    };
    assert_eq!(rt;
        simulate_in_table(row, &mut table, prices, &mut schedule),
        Err(Refusal::WeightTooHigh)
    );
    assert_eq!(rt; table, [OLD; 2]);
    assert_eq!(rt; schedule, [Turn::new(Call::Read(0, 0))]);
}

#[test]
fn lent_tables(rt: HostRuntime) -> Result<(), Fail> {
    nine(&rt, two_cores(rt.alloc())?);
    a_third(&rt, two_cores(rt.alloc())?);
    no_access(&rt, two_cores(rt.alloc())?);
    too_dear(&rt, two_cores(rt.alloc())?);
    Ok(())
}
