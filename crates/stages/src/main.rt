// The sound stage by stage, with a queue for every delay. Without arguments it compares each stage with the Rust's numbers, bit for bit: the input is what
// `oracle stage-runs` writes. With SLOTS EDGE LINES SAMPLES it plays a programme beside the decoder, compares every number of left and right, and with a
// CHANNEL writes the sheet of that channel's queues. With one argument it does the same for the runs that `oracle runs` writes.
#![tactic(auto)]

mod against;
mod begin;
mod both;
mod carried;
mod coefficients;
mod compare;
mod decimal;
mod lines;
mod play;
mod runs;
mod sheet;
mod stream;

use programme::arguments;

fn main(rt: HostRuntime) {
    match arguments::count(&rt) {
        0 | 1 => against::all(&rt, &mut rt.stdin()),
        2 => runs::all(&rt, &mut rt.stdin()),
        _ => lines::all(&rt),
    }
}
