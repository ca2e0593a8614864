// A delay as a queue: the newest entry first, the oldest last. A queue of complex numbers is two of floats, the real parts and then the imaginary parts.
ghost use Rattle.std.specs.Prelude.{◌≡◌, ◌≤◌, length};
ghost use Rattle.lists.specs.Queue.{pushed};
ghost use Rattle.standard.specs.Channel.{link_state, link_output};
ghost use Rattle.queue_decorr.specs.Queues.{shifted, oldest_of};

use complex::Complex;
use standard::Link;

// Every entry moves one place, and x goes in first. The length is the slice's, so that one function serves every delay.
fn push(queue: &mut [f64], x: f64)
    ensures { queue.new ≡ pushed x queue.old }
{
    if let Some(last) = queue.len().checked_sub(1) {
        queue.copy_within(..last, 1);
        queue[0] = x;
    }
}

fn shift(queue: &mut [f64], x: Complex)
    ensures { queue.new ≡ shifted x queue.old }
{
    let half = queue.len() / 2;
    push(&mut queue[..half], x.re);
    push(&mut queue[half..], x.im);
}

fn oldest(queue: &[f64]) -> Complex
    requires { 2 ≤ length queue.now }
    ensures { result ≡ oldest_of queue.now }
{
    let half = queue.len() / 2;
    Complex {
        re: queue[half - 1],
        im: queue[half - 1 + half],
    }
}

// A plain delay: the oldest entry comes out, and x goes in.
pub fn delay(queue: &mut [f64], x: Complex) -> Complex
    requires { 2 ≤ length queue.old }
    ensures answer { result ≡ oldest_of queue.old }
    ensures queue { queue.new ≡ shifted x queue.old }
{
    let out = oldest(queue);
    shift(queue, x);
    out
}

// A link of an all-pass chain: w of d slots before comes out, and the new w goes in.
// Kept: the decoder has a link of four lanes: what is compared with it stands apart from its code, and goes number by number.
pub fn link(queue: &mut [f64], u: Complex, constants: Link) -> Complex
    requires { 2 ≤ length queue.old }
    ensures answer { result ≡ link_output u constants (oldest_of queue.old) }
    ensures queue { queue.new ≡ shifted (link_state u constants (oldest_of queue.old)) queue.old }
{
    let turned = constants.rotation * oldest(queue);
    let state = u + turned.scale(constants.feedback);
    shift(queue, state);
    turned - state.scale(constants.feedback)
}
