use crate::bodies::*;
use crate::model::board;
use buckets::{Buckets, Cell};
use queue::Entry;
use std::test::Fail;

/// A cell as another use left it.
fn used<E: Entry>(entry: E) -> Cell<E> {
    Cell {
        next: 9,
        ..Cell::new(entry)
    }
}

// Each make has its own tests: a make borrows its cells, and a trait for it would need an associated type with a lifetime
// parameter.
#[test]
fn hub(rt: HostRuntime) -> Result<(), Fail> {
    let mut cells = vec![in rt.alloc(); used(label(1, 2, 3, 4)); 4096]?;
    let mut q = Buckets::new(cells.as_mut_slice());
    hub_minute(&rt, &mut q)
}

#[test]
fn labels(rt: HostRuntime) {
    let mut cells = [used(label(1, 2, 3, 4)); 6];
    let mut q = Buckets::new(&mut cells);
    label_order(&rt, &mut q);
}

#[test]
fn boards(rt: HostRuntime) -> Result<(), Fail> {
    let mut cells = [used(board(5, 5)); 16];
    let mut q = Buckets::new(&mut cells);
    sixteen(&rt, rt.alloc(), &mut q)
}

#[test]
fn empty(rt: HostRuntime) {
    let mut cells = [used(board(5, 5)); 0];
    let mut q = Buckets::new(&mut cells);
    no_cells(&rt, &mut q);
}
