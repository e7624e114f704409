//! The law of generated inputs. The function does nothing: its contract is the law.
ghost use Rattle.std.specs.Prelude.{ℕ};
ghost use Rattle.generated_input.specs.Laws.{HasFrames, HasPackets};

/// Every number gives 10,000 records up to 99,990 ms, which a capture holds, and 20,000 packets up to 99,995 ms, which are within the limits of
/// scripts.
pub fn generated_inputs_are_within_limits()
    ensures frames { (number : ℕ) → HasFrames number }
    ensures packets { (number : ℕ) → HasPackets number }
{}
