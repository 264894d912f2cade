//! What the tables of lists come to. Nothing here runs.

ghost use Rattle.std.specs.Prelude.{◌≡◌, ℕ, ◌<◌, Bool, Option};
ghost use Rattle.tz_ready.specs.declared.queue.Queue.{Queue};
ghost use Rattle.tz_ready.specs.Threads.{Threads, first_in, walk, AreFrom};

/// From the head of a list the tables lead through all slots that are linked in it, in ascending number, and through no
/// others.
pub fn lists_ascend()
    ensures { (f : ℕ → Option Queue) (after before : ℕ → ℕ) (set : ℕ → Bool) (q : Queue) → Threads f after before set → q.level < 256 → AreFrom f q 0 (walk 272 after (first_in set after q)) }
{}
