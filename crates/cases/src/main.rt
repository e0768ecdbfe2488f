// The worked cases of document 01 that run; what they must write stands in `stdout`.
#![tactic(auto)]

mod answers;
mod history;
mod reads;
mod refusals;
mod show;
mod sizes;

use answers::{say_number, say_place};

fn main(rt: HostRuntime) {
    let mut store = [0xAAu8; 3072];
    case_10(&rt, &mut store);
    let mut damaged = store;
    damaged[1024] = 1;
    refusals::all(&rt, &store, &damaged);
    refusals::of_writes(&rt, &mut store, &mut damaged);
    reads::row_by_row(&rt);
    histories(&rt, &mut store);
    sizes::larger(&rt);
}

// On what the other cases left, and on larger stores.
fn histories<R: Print>(rt: &R, store: &mut [u8]) {
    let mut nine = [0xAAu8; 9216];
    let mut five = [0xAAu8; 5120];
    history::full(rt, store);
    history::crowded(rt, store);
    history::deep_split(rt, &mut nine);
    history::deep_join(rt, &mut nine);
    history::fragmented(rt, store);
    history::room(rt, store);
    history::joined(rt, &mut five);
    history::cleared(rt, &mut five);
}

// In 3 pages, "a" with place (7, 2, 0), whatever they held.
// Stays: named by the case of document 01, another one than case_11 in history.rt.
fn case_10<R: Print>(rt: &R, store: &mut [u8]) {
    say_number(rt, "format:", lots_c::lots_format(store, 1024));
    say_place(rt, "put a:", lots_c::lots_put(store, b"a", 7, 2, 0, 0));
    let _ = println!(rt; "case 10");
    show::lines(rt, store);
}
