//! Names, addresses, typed values and letters.
#![tactic(auto)]

mod address;
mod cell;
mod cells;
mod copies;
mod escape;
mod field_laws;
mod letter;
mod messages;
mod name;
mod parse;
mod pattern;
mod reading;
mod record;
mod stored;
mod value;
mod wrapped;
mod writing;

pub use address::Address;
pub use cell::{CellSpec, Expiry};
pub use cells::{Cell, Shipped};
pub use escape::{
    put_address_text, put_escaped, put_hex, put_name_parts, put_name_text, put_value_text,
};
pub use field_laws::{
    fields_of_a_delay, fields_of_a_letter, fields_of_a_value, fields_of_an_address,
    fields_of_an_egress, member_of_a_sender,
};
pub use letter::{Letter, Sender};
pub use name::TypeName;
pub use parse::{NameFault, names_are_made_so, parse_name, parse_type_name};
pub use pattern::TypePattern;
pub use record::{Delay, EgressRecord};
pub use stored::{
    decode_address, decode_delay, decode_egress, decode_letter, decode_sender, decode_value,
    encode_address, encode_delay, encode_egress, encode_letter, encode_sender, encode_value,
};
pub use value::TypedValue;
pub use wrapped::{
    bool_of, bool_value, int_of, int_value, long_of, long_value, text_of, text_value,
};
