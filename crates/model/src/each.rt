// One answer for each of many positions.
ghost use Rattle.std.specs.Prelude.{◌≡◌, ℕ, ◌≤◌, ◌<◌, ◌^◌, length, map};
ghost use Rattle.model.specs.Answers.{over};

// Writes what `answer` says of each position, in front of the output.
pub fn answer_each<F: Fn(u32) -> u32>(positions: &[u32], out: &mut [u32], answer: F)
    requires fits { length positions.now ≤ length out.old }
    requires callable { F.IsAlwaysCallable answer }
    ensures { (f : ℕ → ℕ) → ((p r : ℕ) → p < 2 ^ 32 → F.post answer p r → r ≡ f p) → out.new ≡ over (map f positions.now) out.old }
{
    for (i, position) in positions.iter().enumerate() {
        out[i] = answer(*position);
    }
}
