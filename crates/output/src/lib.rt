// Items, such as words or bytes, written to a lent slice, cut where it ends: a run on an empty slice measures what a run on a long one writes.
#![tactic(auto)]

ghost use Rattle.std.specs.Prelude.{[], ◌∷◌, ◌+◌, ◌^◌, ◌<◌, length};
ghost use Rattle.output.specs.Overlay.{Wrote};

// Stores w at `at` if there is room there. The next place in any case.
pub fn put<T: Copy>(out: &mut [T], at: usize, w: T) -> usize
    requires { at < 2 ^ 32 }
    ensures { Wrote out.old at (w ∷ []) out.new result }
{
    // A test, not `get_mut`: what is written through that borrow is not known afterwards.
    if at < out.len() {
        out[at] = w;
    }
    at + 1
}

// Stores the items behind one another, as many as there is room for. The place behind them all in any case.
pub fn put_all<T: Copy>(out: &mut [T], at: usize, ws: &[T]) -> usize
    requires { at + length ws.now < 2 ^ 32 }
    ensures { Wrote out.old at ws.now out.new result }
{
    let mut next = at;
    for w in ws {
        next = put(out, next, *w);
    }
    next
}
