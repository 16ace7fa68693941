//! What holds of every value.

ghost use Rattle.std.specs.Prelude.{◌≡◌, Ok};
ghost use Rattle.r3_value.specs.Value.{Value, IsValue};
ghost use Rattle.r3_json.specs.Values.{data_of, value_from};

/// The JSON of a value is read as that value.
pub fn reads_back()
    ensures { (v : Value) → IsValue v → value_from (data_of v) ≡ Ok v }
{}
