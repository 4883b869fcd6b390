// The Facility column of a message's line.
ghost use Rattle.std.specs.Prelude.{◌≡◌, ◌∷◌, ◌++◌, ◌+◌, ◌≤◌, length};
ghost use Rattle.text.specs.Decimal.{decimal_of};
ghost use Rattle.text.specs.Line.{Gains};
ghost use Rattle.text.specs.Columns.{column};
ghost use Rattle.message_line.specs.Column.{wish_letter, component_text, facility_column};

use facility::{Component, Refusal, Wish};
use message_fields::Facilities;
use text::line::Line;
use text::service::service_digit;

// A letter of the column's, by `wish_letter`: to Display a wish would be to say it in a text of its own.
fn wish_letter(w: Wish) -> u8
    ensures { result ≡ wish_letter w }
{
    match w {
        Wish::Preferred => b'p',
        Wish::Required => b'r',
    }
}

// An invoke number, and what is said of it.
fn put_invoke(line: &mut Line<221>, id: u8, said: &[u8])
    requires { length line.old + (20 + length said.now) ≤ 221 }
    ensures { Gains (20 + length said.now) (decimal_of id ++ said.now) line.old line.new }
{
    line.put_decimal(u64::from(id));
    line.put(said);
}

#[tactic(auto, using(crate::proofs::Words::digit_is))]
fn put_component(line: &mut Line<221>, c: Component)
    requires { length line.old + 28 ≤ 221 }
    ensures { Gains 28 (component_text c) line.old line.new }
{
    match c {
        Component::Invoke(id, s, w) => {
            put_invoke(line, id, &[b'.', service_digit(s), b'.', wish_letter(w)])
        }
        Component::Accepted(id) => put_invoke(line, id, b".ok"),
        Component::Rejected(id, Refusal::ByUser) => put_invoke(line, id, b".user"),
        Component::Rejected(id, Refusal::ByNetwork) => put_invoke(line, id, b".network"),
    }
}

// A component after others.
fn put_next(line: &mut Line<221>, c: Component)
    requires { length line.old + 29 ≤ 221 }
    ensures { Gains 29 (44 ∷ component_text c) line.old line.new }
{
    line.put(b",");
    put_component(line, c);
}

// The column, and the space before it.
pub(crate) fn put_facilities(line: &mut Line<221>, f: Facilities)
    requires { length line.old + 87 ≤ 221 }
    ensures { Gains 87 (column (facility_column f)) line.old line.new }
{
    line.put(b" ");
    match f {
        Facilities::Zero => line.put(b"-"),
        Facilities::One(a) => put_component(line, a),
        Facilities::Two(a, b) => {
            put_component(line, a);
            put_next(line, b);
        }
        Facilities::Three(a, b, c) => {
            put_component(line, a);
            put_next(line, b);
            put_next(line, c);
        }
    }
}
