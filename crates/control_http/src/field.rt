// The parts of the texts in JSON.
ghost use Rattle.std.specs.Prelude.{◌≡◌, ◌++◌, OnOk, decimal};
ghost use Rattle.control_http.specs.Field.{field};

use rack_text::write_decimal;
use rack_types::NoMemory;

// Appends a name, with what stands around it, and a number.
#[tactic(auto, unfolding(crate::specs::Field::field))]
pub(crate) fn put_number(json: &mut Vec<u8>, name: &[u8], number: u64) -> Result<(), NoMemory>
    ensures { OnOk result (json.new.items ≡ json.old.items ++ field name.now (decimal number)) }
{
    json.extend_from_slice(name)?;
    write_decimal(number as u128, json)
}

// Appends a name, with what stands around it, and a text.
#[tactic(auto, unfolding(crate::specs::Field::field))]
pub(crate) fn put_text(json: &mut Vec<u8>, name: &[u8], text: &[u8]) -> Result<(), NoMemory>
    ensures { OnOk result (json.new.items ≡ json.old.items ++ field name.now text.now) }
{
    json.extend_from_slice(name)?;
    json.extend_from_slice(text)
}
