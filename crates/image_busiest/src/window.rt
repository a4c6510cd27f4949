// A window of k hours, moved along the hours of an accepted image, so many hours at a time that neither end leaves its page.
ghost use Rattle.std.specs.Prelude.{◌≡◌, ℕ, ◌+◌, ◌^◌, ◌≤◌, ◌<◌};
ghost use Rattle.image.specs.Read.{list_of};
ghost use Rattle.runs.specs.Runs.{Busiest, run_sum};
ghost use Rattle.image_busiest.specs.Code.{Along, AtEnds, Looked, later};

use answers::image::Stretch;
use bits_word::low_bits;
use image::opened::Accepted;
use image_cursor::cursor::{Cursor, ahead};
use image_query::look;
use sum_table::SumTable;

// A window on its way: its first hour and its sum; and the best of the windows so far.
#[derive(Clone, Copy)]
pub struct Window {
    pub first: u64,
    pub sum: u64,
    pub best: Stretch,
}

// The window one hour later, where one count comes in and one goes out. On a tie the earlier one stays the best.
fn moved(w: Window, more: u64, less: u64) -> Window
    requires { (w.first < 4294967296) × (w.sum + more < 2 ^ 64) × (less ≤ w.sum + more) }
    ensures { result ≡ later w more less }
{
    let first = w.first + 1;
    let sum = w.sum + more - less;
    if w.best.total < sum {
        let best = Stretch { first, total: sum };
        Window { first, sum, best }
    } else {
        Window { first, sum, ..w }
    }
}

// How far the window from hour j on moves at a time: to the end of a page at one of its ends, or of the list.
fn stride(image: &Accepted, k: u64, j: u64) -> usize
    requires { j + k < image.now.head.hours }
    ensures { Along image.now.head k j result }
{
    ahead(image.head, j + k).min(ahead(image.head, j))
}

// The window of k hours n hours later: front is at the hour behind it, back at its first hour.
fn slide(at: Window, n: usize, front: &Cursor, back: &Cursor) -> Window
    ghost k: { ℕ }
    requires looked { Looked back.now.image.now.bytes.now k at × Along back.now.image.now.head k at.first n }
    requires ends { AtEnds k at front.now back.now }
    ensures { Looked back.now.image.now.bytes.now k result × (result.first ≡ at.first + n) }
{
    let f = low_bits(front.hour, front.image.head.e) as usize;
    let b = low_bits(back.hour, back.image.head.e) as usize;
    let mut w = at;
    // By one index for both: for a zip both pages would first be cut to these n counts.
    for i in 0..n {
        w = moved(
            w,
            u64::from(front.counts[f + i]),
            u64::from(back.counts[b + i]),
        );
    }
    w
}

// The sum of the first k hours, which the way to the last of them finds: an accepted image has no damage there.
fn first_sum(image: &Accepted, k: u64) -> u64
    requires { (1 ≤ k) × (k ≤ image.now.head.hours) }
    ensures { result ≡ run_sum (list_of image.now.bytes.now) 0 k }
{
    look(&image.image(), k - 1, true).unwrap()
}

// The busiest window of k hours. No struct holds image and k: among has tested k against it, and two functions ask it.
pub(crate) fn best_window(image: &Accepted, table: &SumTable, k: u64) -> Window
    requires { (1 ≤ k) × (k ≤ image.now.head.hours) }
    ensures { Busiest (list_of image.now.bytes.now) k result.best.first result.best.total }
{
    let mut front = Cursor::new(image, table);
    let mut back = Cursor::new(image, table);
    front.read(k);
    back.read(0);
    let sum = first_sum(image, k);
    let best = Stretch {
        first: 0,
        total: sum,
    };
    let mut at = Window {
        first: 0,
        sum,
        best,
    };
    // A while: a step is as long as the pages at both ends allow.
    while front.hour < image.head.hours {
        let n = stride(image, k, at.first);
        at = slide(at, n, &front, &back);
        // Before the front's turn: where k is no more than a page, the back's next page is the front's.
        back.follow(n as u64, &front);
        front.turn(n as u64);
    }
    at
}
