// The members of values.
ghost use Rattle.std.specs.Prelude.{◌≡◌, ◌≤◌, ℕ, IfNone, IfSome, Some, map, option_map};
ghost use Rattle.serde_json.specs.View.{view};
ghost use Rattle.hose_graph.specs.Limit.{IsUpTo};
ghost use Rattle.hose_topo_json.specs.JsonValue.{list_at, number_at, text_at};

use serde_json::Value;

/// The elements of the array under a name.
pub fn list<'v>(value: &'v Value, name: &str) -> Option<&'v [Value]>
    ensures { option_map (λ values. map view values.now) result
        ≡ list_at name.now (view value.now) }
{
    let Some(values) = value.get(name).and_then(Value::as_array) else {
        return None;
    };
    Some(values)
}

/// The text under a name.
pub fn text<'v>(value: &'v Value, name: &str) -> Option<&'v str>
    ensures { option_map (λ text. text.now) result ≡ text_at name.now (view value.now) }
{
    value.get(name).and_then(Value::as_str)
}

/// The number under a name.
pub fn number(value: &Value, name: &str) -> Option<u64>
    ensures { result ≡ number_at name.now (view value.now) }
{
    value.get(name).and_then(Value::as_u64)
}

/// The number under a name, where it is 1 at least and no more than the most.
pub fn number_up_to(value: &Value, name: &str, most: u64) -> Option<u64>
    ensures some { IfSome result (λ told. number_at name.now (view value.now) ≡ Some told) }
    ensures within { IfSome result (IsUpTo most) }
    ensures none { IfNone result ((told : ℕ) → number_at name.now (view value.now) ≡ Some told
        → ¬ IsUpTo most told) }
{
    let Some(told) = number(value, name) else {
        return None;
    };
    if (1..=most).contains(&told) {
        Some(told)
    } else {
        None
    }
}
