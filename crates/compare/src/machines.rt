//! The kinds of machines that are tried, each as plain data for the reference and as the simulator's own parts. Some sizes are
//! drawn.

ghost use Rattle.std.specs.Prelude.{◌≤◌};

use crate::reference::plain::Level::{self, Direct as D, Queue as Q, Recent as R, Sets as S};
use crate::reference::plain::Part::{self, Flat as Table, Interleaved as Turns, Window as Stretch};
use crate::trial::{Trial, run};
use assoc::set_associative::SetAssociative;
use direct::direct::Direct;
use interleaved::Interleaved;
use machine::two_cores;
use memory::Memory;
use memory::cell::Cell;
use memory::flat::Flat;
use pair::Pair;
use parts::refusal::BuildError;
use ranked::policy::Lru;
use ranked::queue::Queue;
use ranked::ranked::Ranked;
use row::Row;
use row::one_core::Core;
use std::alloc::{AllocError, Global};
use tier::Tier;
use tier::pile::Pile;
use window::Window;

#[derive(Clone, Copy)]
pub(crate) enum Kind {
    Mcsim,
    OneLine,
    Mixed,
    Deep,
    Eight,
    Nine,
    Nothing,
}

/// Each kind, what it is called, and how many cores it has.
pub(crate) static KINDS: [(Kind, &str, usize); 7] = [
    (Kind::Mcsim, "mcsim's machine", 2),
    (Kind::OneLine, "one core of one line over a window", 1),
    (Kind::Mixed, "three mixed cores over a window of two", 3),
    (Kind::Deep, "two cores of five levels, nested both ways", 2),
    (Kind::Eight, "eight cores over two windows in turn", 8),
    (Kind::Nine, "nine cores", 9),
    (Kind::Nothing, "a window beyond the end", 2),
];

/// The levels of the two cores of mcsim's machine.
pub(crate) static MCSIM: [(usize, Level); 4] = [(0, D(2)), (0, S(2, 2)), (1, D(2)), (1, S(2, 2))];

type Made<T> = Result<T, AllocError>;

/// At most ten of something.
#[derive(Drop)]
pub(crate) struct Few<T> {
    items: [T; 10],
    count: usize,
}

impl<T: Copy> Few<T> {
    // Some, and a blank in the places that are left.
    fn of(blank: T, some: &[T]) -> Few<T> {
        let mut items = [blank; 10];
        for (place, item) in items.iter_mut().zip(some) {
            *place = *item;
        }
        Few {
            items,
            count: some.len(),
        }
    }

    pub(crate) fn list(&self) -> &[T] {
        self.items.get(..self.count).unwrap_or(&self.items)
    }
}

/// The levels of a kind.
pub(crate) fn levels_of(kind: Kind, (size, other): (usize, usize)) -> Few<(usize, Level)> {
    let lines = S(2, size);
    let row = [
        (0, lines),
        (1, lines),
        (2, lines),
        (3, lines),
        (4, lines),
        (5, lines),
        (6, lines),
        (7, lines),
        (8, D(size)),
    ];
    let deep = [
        (0, D(1)),
        (0, Q(size)),
        (0, S(1, 2)),
        (0, D(2)),
        (0, Q(1)),
        (1, D(size)),
        (1, Q(2)),
        (1, S(2, other)),
        (1, D(1)),
        (1, Q(1)),
    ];
    let mixed = [(0, D(size)), (1, R(other)), (2, Q(size))];
    let some: &[(usize, Level)] = match kind {
        Kind::Mcsim | Kind::Nothing => &MCSIM,
        Kind::OneLine => &[(0, D(1))],
        Kind::Mixed => &mixed,
        Kind::Deep => &deep,
        Kind::Eight => row.get(..8).unwrap_or(&row),
        Kind::Nine => &row,
    };
    Few::of((0, D(1)), some)
}

// Of so many cells the first part of two tables takes these.
fn split(kind: Kind, cells: usize) -> usize
    ensures { result ≤ cells }
{
    match kind {
        Kind::Mixed => (cells / 2).saturating_sub(1),
        _ => cells.min(9),
    }
}

/// The parts of the memory of a kind over so many cells.
pub(crate) fn parts_of(kind: Kind, cells: usize) -> Few<Part> {
    let first = split(kind, cells);
    let rest = cells.saturating_sub(first);
    let most = 4_294_967_295;
    let one = [Table(cells), Stretch(3, 9, 0)];
    let beyond = [Table(cells), Stretch(99, 9, 0)];
    let mixed = [Table(first), Table(rest), Turns(0, 1), Stretch(2, most, 2)];
    let in_turn = [
        Table(first),
        Stretch(1, 6, 0),
        Table(rest),
        Stretch(0, 5, 2),
        Turns(1, 3),
    ];
    let some: &[Part] = match kind {
        Kind::OneLine => &one,
        Kind::Nothing => &beyond,
        Kind::Mcsim | Kind::Deep => one.get(..1).unwrap_or(&one),
        Kind::Mixed => &mixed,
        Kind::Eight | Kind::Nine => &in_turn,
    };
    Few::of(Table(0), some)
}

fn direct(heap: Global, lines: usize) -> Made<Direct> {
    Direct::new(heap, lines).or_else(BuildError::into_tier)
}

fn queue(heap: Global, lines: usize) -> Made<Queue> {
    Queue::new(heap, lines).or_else(BuildError::into_tier)
}

fn recent(heap: Global, lines: usize) -> Made<Ranked<Lru>> {
    Ranked::with_policy(heap, Lru, lines).or_else(BuildError::into_tier)
}

fn sets(heap: Global, count: usize, ways: usize) -> Made<SetAssociative> {
    SetAssociative::new(heap, count, ways).or_else(BuildError::into_tier)
}

// A row over a stretch of a memory.
fn stretched<R: Row + Drop, M: Memory + Drop>(
    heap: Global,
    trial: &mut Trial,
    row: Made<R>,
    below: M,
    start: u32,
    length: u32,
) -> Made<()> {
    let memory = Window::new(below, start, length);
    run(heap, trial, row?, memory)
}

// A row over two memories in turn.
fn alternate<R: Row + Drop, M: Memory + Drop>(
    heap: Global,
    trial: &mut Trial,
    row: Made<R>,
    even: M,
    odd: M,
) -> Made<()> {
    let memory = Interleaved::new(even, odd);
    run(heap, trial, row?, memory)
}

// A row over windows of two tables in turn.
fn in_turn<R: Row + Drop>(
    heap: Global,
    trial: &mut Trial,
    row: Made<R>,
    cells: &mut [Cell],
) -> Made<()> {
    let first = split(Kind::Eight, cells.len());
    let (even, odd) = cells.split_at_mut(first);
    let even = Window::new(Flat::over(even), 1, 6);
    let odd = Window::new(Flat::over(odd), 0, 5);
    alternate(heap, trial, row, even, odd)
}

// A row over a window of two tables in turn.
fn woven<R: Row + Drop>(
    heap: Global,
    trial: &mut Trial,
    row: Made<R>,
    cells: &mut [Cell],
) -> Made<()> {
    let first = split(Kind::Mixed, cells.len());
    let (even, odd) = cells.split_at_mut(first);
    let whole = Interleaved::new(Flat::over(even), Flat::over(odd));
    stretched(heap, trial, row, whole, 2, u32::MAX)
}

fn core<T: Tier + Drop>(tier: Made<T>) -> Made<Core<T>> {
    Ok(Core::new(tier?))
}

fn beside<R: Row + Drop, S: Row + Drop>(first: Made<R>, second: Made<S>) -> Made<Pair<R, S>> {
    let first = first?;
    Ok(Pair::new(first, second?))
}

fn three<A: Tier + Drop, B: Tier + Drop, C: Tier + Drop>(
    a: Made<A>,
    b: Made<B>,
    c: Made<C>,
) -> Made<Pair<Core<A>, Pair<Core<B>, Core<C>>>> {
    beside(core(a), beside(core(b), core(c)))
}

type TwoLevels = Pile<Direct, Queue>;

fn two_levels(heap: Global, lines: usize, more: usize) -> Made<TwoLevels> {
    let first = direct(heap, lines)?;
    Ok(Pile::new(first, queue(heap, more)?))
}

type Three<T, U> = (Made<T>, Made<U>, Made<T>);

// Three tiers, which make five levels if the first and the last have two.
fn nested<T: Tier + Drop, U: Tier + Drop>(tiers: Three<T, U>) -> Made<Core<Pile<T, Pile<U, T>>>> {
    let (first, second, third) = tiers;
    let lower = Pile::new(second?, third?);
    Ok(Core::new(Pile::new(first?, lower)))
}

type Two = Pair<Core<SetAssociative>, Core<SetAssociative>>;

fn two(heap: Global, ways: usize) -> Made<Two> {
    beside(core(sets(heap, 2, ways)), core(sets(heap, 2, ways)))
}

// Two rows over the whole of one table.
fn side_by_side<R: Row + Drop>(
    heap: Global,
    trial: &mut Trial,
    first: Made<R>,
    second: Made<R>,
    cells: &mut [Cell],
) -> Made<()> {
    let row = beside(first, second);
    run(heap, trial, row?, Flat::over(cells))
}

// Two rows, and perhaps one core of so many lines more, over windows of two tables in turn.
fn many<R: Row + Drop>(
    heap: Global,
    trial: &mut Trial,
    first: Made<R>,
    second: Made<R>,
    cells: &mut [Cell],
    ninth: Option<usize>,
) -> Made<()> {
    let row = beside(first, second);
    match ninth {
        None => in_turn(heap, trial, row, cells),
        Some(lines) => {
            let row = beside(row, core(direct(heap, lines)));
            in_turn(heap, trial, row, cells)
        }
    }
}

// Two cores of three tiers each.
fn two_nested<T: Tier + Drop, U: Tier + Drop>(
    heap: Global,
    trial: &mut Trial,
    first: Three<T, U>,
    second: Three<T, U>,
    cells: &mut [Cell],
) -> Made<()> {
    side_by_side(heap, trial, nested(first), nested(second), cells)
}

// Four rows, and perhaps one core more.
fn four<R: Row + Drop>(
    heap: Global,
    trial: &mut Trial,
    rows: (Made<R>, Made<R>, Made<R>, Made<R>),
    cells: &mut [Cell],
    ninth: Option<usize>,
) -> Made<()> {
    let (a, b, c, d) = rows;
    many(heap, trial, beside(a, b), beside(c, d), cells, ninth)
}

// Each of the following tries the machines of one sort of row. A function that names many sorts, or deep ones, is dear to check.

fn on_two_cores(heap: Global, trial: &mut Trial, cells: &mut [Cell], start: u32) -> Made<()> {
    stretched(
        heap,
        trial,
        two_cores(heap),
        Flat::over(cells),
        start,
        u32::MAX,
    )
}

fn on_one_line(heap: Global, trial: &mut Trial, cells: &mut [Cell]) -> Made<()> {
    stretched(heap, trial, core(direct(heap, 1)), Flat::over(cells), 3, 9)
}

fn on_deep(
    heap: Global,
    trial: &mut Trial,
    cells: &mut [Cell],
    (size, other): (usize, usize),
) -> Made<()> {
    let first = (
        two_levels(heap, 1, size),
        sets(heap, 1, 2),
        two_levels(heap, 2, 1),
    );
    let second = (
        two_levels(heap, size, 2),
        sets(heap, 2, other),
        two_levels(heap, 1, 1),
    );
    two_nested(heap, trial, first, second, cells)
}

fn on_mixed(
    heap: Global,
    trial: &mut Trial,
    cells: &mut [Cell],
    (size, other): (usize, usize),
) -> Made<()> {
    let row = three(direct(heap, size), recent(heap, other), queue(heap, size));
    woven(heap, trial, row, cells)
}

fn on_many(
    heap: Global,
    trial: &mut Trial,
    cells: &mut [Cell],
    size: usize,
    ninth: Option<usize>,
) -> Made<()> {
    let rows = (
        two(heap, size),
        two(heap, size),
        two(heap, size),
        two(heap, size),
    );
    four(heap, trial, rows, cells, ninth)
}

/// Tries a machine of a kind on the simulator.
pub(crate) fn try_on(
    heap: Global,
    kind: Kind,
    trial: &mut Trial,
    cells: &mut [Cell],
    sizes: (usize, usize),
) -> Made<()> {
    match kind {
        Kind::Mcsim => on_two_cores(heap, trial, cells, 0),
        Kind::Nothing => on_two_cores(heap, trial, cells, 99),
        Kind::OneLine => on_one_line(heap, trial, cells),
        Kind::Mixed => on_mixed(heap, trial, cells, sizes),
        Kind::Deep => on_deep(heap, trial, cells, sizes),
        Kind::Eight => on_many(heap, trial, cells, sizes.0, None),
        Kind::Nine => on_many(heap, trial, cells, sizes.0, Some(sizes.0)),
    }
}
