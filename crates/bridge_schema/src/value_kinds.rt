//! Kinds of values that keys allow: numbers, booleans, speeds, and numbers of instances.
ghost use Rattle.std.specs.Prelude.{◌≡◌, ◌≤◌, ℕ, Bool, true, Result, Ok, IfOk, ⊤};
ghost use Rattle.toml.specs.Data.{Data};
ghost use Rattle.toml.specs.View.{view};
ghost use Rattle.bridge_schema.specs.declared.plan_fault.Flaw.{Flaw};
ghost use Rattle.bridge_schema.specs.Readers as spec;

use crate::plan_fault::Flaw;
use bridge_frame::Speed;
use toml::Value;

/// Kind of value that a key allows: it parses a value or refuses it. Readers of keys work for any kind.
pub trait ValueKind {
    /// Parsed value.
    type Out;

    /// Parsed value, or why the data is refused.
    ghost reading: { Self → Data → Result Self.Out Flaw };

    /// Property that each parsed value has.
    ghost Fits: { Self → Self.Out → Type 0 };

    /// Parses a value, or returns why it is refused. Allocates no memory. Readers of keys call it with the key's kind of value.
    fn read(&self, value: &Value) -> Result<Self::Out, Flaw>
        ensures reads { result ≡ reading self.now (view value.now) }
        ensures fits { IfOk result (Fits self.now) };
}

/// Integer from `low` to `high`.
#[derive(Clone, Copy)]
pub struct NumberRange {
    /// Least allowed number.
    pub low: u64,
    /// Greatest allowed number.
    pub high: u64,
}

impl ValueKind for NumberRange {
    type Out = u64;

    ghost reading = { λ k. spec.number_in_range k.low k.high };

    ghost Fits = { λ k n. (k.low ≤ n) × (n ≤ k.high) };

    #[tactic(auto, unfolding(crate::specs::Readers::number_in_range))]
    fn read(&self, value: &Value) -> Result<u64, Flaw> {
        match value {
            Value::Integer(number) => {
                if *number < 0 {
                    return Err(Flaw::OutOfRange);
                }
                let number = *number as u64;
                if self.low <= number && number <= self.high {
                    Ok(number)
                } else {
                    Err(Flaw::OutOfRange)
                }
            }
            _ => Err(Flaw::WrongKind),
        }
    }
}

/// Boolean value, `true` or `false`.
#[derive(Clone, Copy)]
pub struct Switch;

impl ValueKind for Switch {
    type Out = bool;

    ghost reading = { λ _. spec.switch };

    ghost Fits = { λ _ _. ⊤ };

    #[tactic(auto, unfolding(crate::specs::Readers::switch))]
    fn read(&self, value: &Value) -> Result<bool, Flaw> {
        match value {
            Value::Boolean(on) => Ok(*on),
            _ => Err(Flaw::WrongKind),
        }
    }
}

/// Speed in Mb/s: 10, 100, 1000, 2500 or 10000.
#[derive(Clone, Copy)]
pub struct Mbps;

impl ValueKind for Mbps {
    type Out = Speed;

    ghost reading = { λ _. spec.speed };

    ghost Fits = { λ _ _. ⊤ };

    #[tactic(auto, unfolding(crate::specs::Readers::speed))]
    fn read(&self, value: &Value) -> Result<Speed, Flaw> {
        match value {
            Value::Integer(number) if *number < 0 || *number > 10_000 => Err(Flaw::OutOfRange),
            Value::Integer(number) => match Speed::of(*number as u32) {
                Some(speed) => Ok(speed),
                None => Err(Flaw::OutOfRange),
            },
            _ => Err(Flaw::WrongKind),
        }
    }
}

/// Numbers of instances that keys may name, such as ports of the plan. `KnownNumber` looks numbers up in it.
pub trait NumberLookup {
    /// Whether an instance has this number, so that a key may name it.
    ghost among: { Self → ℕ → Bool };

    /// Whether an instance has the number `number`: a value may refer only to such numbers.
    fn has(&self, number: u64) -> bool
        ensures among { result ≡ among self.now number };
}

/// Number of an existing instance, such as a port. Any other integer is `Unresolved`, even an integer outside `range`.
#[derive(Clone, Copy)]
pub struct KnownNumber<F> {
    /// Instance numbers that a value of this kind may name.
    pub among: F,
    /// Range of instance numbers in this section.
    pub range: NumberRange,
}

impl<F: NumberLookup> ValueKind for KnownNumber<F> {
    type Out = u64;

    ghost reading = { λ k. spec.known_number (F.among k.among) k.range.low k.range.high };

    ghost Fits = { λ k n. (k.range.low ≤ n) × (n ≤ k.range.high) × (F.among k.among n ≡ true) };

    #[tactic(auto, unfolding(crate::specs::Readers::known_number))]
    fn read(&self, value: &Value) -> Result<u64, Flaw> {
        match value {
            Value::Integer(number) => {
                if *number < 0 {
                    return Err(Flaw::Unresolved);
                }
                let number = *number as u64;
                if self.range.low <= number && number <= self.range.high && self.among.has(number) {
                    Ok(number)
                } else {
                    Err(Flaw::Unresolved)
                }
            }
            _ => Err(Flaw::WrongKind),
        }
    }
}
