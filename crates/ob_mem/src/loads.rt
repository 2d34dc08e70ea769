//! The word of a row at an address, by choices over the bits of the address.

ghost use Rattle.std.specs.Prelude.{◌≡◌, ℕ, ◌<◌, ◌≤◌, ◌+◌, ◌-◌, ◌*◌, ◌/◌, ◌%◌, ◌^◌, ◌==◌, List, length, IfOk, OnOk, slice_index, true};
ghost use Rattle.wb_values.specs.Value.{truth, word, truth_value, number, Valuation};
ghost use Rattle.model_meaning.specs.Term.{const, eq, extract, val};
ghost use Rattle.wb_terms.specs.Graph.{tree};
ghost use Rattle.ob_mem.specs.Rows.{Grows, IsPlain, AreWords, HoldWords};

use crate::NoMemory;
use crate::rows::{Row, later, power, put, put_row};
use wb_terms::{Node, TermId, Terms};

/// A bit of an address, as a word of one bit.
fn put_part(terms: &mut Terms, address: TermId, bit: u32) -> Result<TermId, NoMemory>
    requires { (a : ℕ) × IsPlain terms.old address.0 (word a) × (bit < a) }
    ensures grows { OnOk result (Grows terms.old terms.new) }
    ensures plain { IfOk result (λ r. IsPlain terms.new r.0 (word 1)) }
    ensures tree { IfOk result (λ r. tree terms.new r.0 ≡ extract bit bit (tree terms.old address.0)) }
    ensures count { OnOk result (length terms.new.nodes ≡ length terms.old.nodes + 1) }
{
    let id = put(terms, Node::Extract(bit, bit, address))?;
    Ok(id)
}

/// Whether two words of one bit are equal.
fn put_test(terms: &mut Terms, x: TermId, y: TermId) -> Result<TermId, NoMemory>
    requires x { IsPlain terms.old x.0 (word 1) }
    requires y { IsPlain terms.old y.0 (word 1) }
    ensures grows { OnOk result (Grows terms.old terms.new) }
    ensures plain { IfOk result (λ r. IsPlain terms.new r.0 truth) }
    ensures tree { IfOk result (λ r. tree terms.new r.0 ≡ eq (tree terms.old x.0) (tree terms.old y.0)) }
    ensures count { OnOk result (length terms.new.nodes ≡ length terms.old.nodes + 1) }
{
    let id = put(terms, Node::Eq(x, y))?;
    Ok(id)
}

/// Whether a bit of an address is 1; `one` is the constant 1 of one bit.
fn put_bit(terms: &mut Terms, address: TermId, bit: u32, one: TermId) -> Result<TermId, NoMemory>
    requires address { (a : ℕ) × IsPlain terms.old address.0 (word a) × (bit < a) }
    requires one { IsPlain terms.old one.0 (word 1) }
    requires is_one { tree terms.old one.0 ≡ const 1 1 }
    ensures grows { OnOk result (Grows terms.old terms.new) }
    ensures plain { IfOk result (λ r. IsPlain terms.new r.0 truth) }
    ensures value { IfOk result (λ r. (w : Valuation) (i : ℕ) → val (tree terms.old address.0) w ≡ number i
        → val (tree terms.new r.0) w ≡ truth_value ((i / 2 ^ bit) % 2 == 1)) }
    ensures count { OnOk result (length terms.new.nodes ≡ length terms.old.nodes + 2) }
{
    let part = put_part(terms, address, bit)?;
    let id = put_test(terms, part, one)?;
    Ok(id)
}

/// Of a row of 2^(bit + 1) words that half that the bit of the address chooses.
fn put_half(
    terms: &mut Terms,
    first: TermId,
    address: TermId,
    bit: u32,
    one: TermId,
) -> Result<TermId, NoMemory>
    requires words { (d : ℕ) × AreWords terms.old first.0 (2 ^ (bit + 1)) d }
    requires address { (a : ℕ) × IsPlain terms.old address.0 (word a) × (bit < a) }
    requires narrow { bit < 16 }
    requires one { IsPlain terms.old one.0 (word 1) }
    requires is_one { tree terms.old one.0 ≡ const 1 1 }
    ensures grows { OnOk result (Grows terms.old terms.new) }
    ensures words { IfOk result (λ r. (d : ℕ) → AreWords terms.old first.0 (2 ^ (bit + 1)) d → AreWords terms.new r.0 (2 ^ bit) d) }
    ensures values { IfOk result (λ r. (w : Valuation) (xs : List ℕ) (i : ℕ) → val (tree terms.old address.0) w ≡ number i
        → HoldWords terms.old w first.0 (2 ^ (bit + 1)) xs (i - i % 2 ^ (bit + 1))
        → HoldWords terms.new w r.0 (2 ^ bit) xs (i - i % 2 ^ bit)) }
    ensures count { OnOk result (length terms.new.nodes ≡ length terms.old.nodes + 2 + 2 ^ bit) }
{
    let condition = put_bit(terms, address, bit, one)?;
    let half = power(bit);
    let upper = later(terms, first, half);
    let id = put_row(terms, Row::Choices(condition, upper, first), half)?;
    Ok(id)
}

/// The constant 1 of one bit.
fn put_one(terms: &mut Terms) -> Result<TermId, NoMemory>
    ensures grows { OnOk result (Grows terms.old terms.new) }
    ensures plain { IfOk result (λ r. IsPlain terms.new r.0 (word 1)) }
    ensures tree { IfOk result (λ r. tree terms.new r.0 ≡ const 1 1) }
    ensures count { OnOk result (length terms.new.nodes ≡ length terms.old.nodes + 1) }
{
    let id = put(terms, Node::Const(1, 1))?;
    Ok(id)
}

/// The word of a row of 2^a words at an address of a bits: 2^a - 1 choices.
pub(crate) fn put_load(
    terms: &mut Terms,
    row: TermId,
    address: TermId,
    address_width: u32,
) -> Result<TermId, NoMemory>
    requires words { (d : ℕ) × AreWords terms.old row.0 (2 ^ address_width) d }
    requires address { IsPlain terms.old address.0 (word address_width) }
    requires narrow { address_width ≤ 16 }
    ensures grows { OnOk result (Grows terms.old terms.new) }
    ensures plain { IfOk result (λ r. (d : ℕ) → AreWords terms.old row.0 (2 ^ address_width) d → IsPlain terms.new r.0 (word d)) }
    ensures value { IfOk result (λ r. (w : Valuation) (xs : List ℕ) (i : ℕ) → val (tree terms.old address.0) w ≡ number i → i < 2 ^ address_width
        → HoldWords terms.old w row.0 (2 ^ address_width) xs 0 → val (tree terms.new r.0) w ≡ number (slice_index xs i)) }
    ensures count { OnOk result (length terms.new.nodes ≡ length terms.old.nodes + (2 ^ address_width + 2 * address_width)) }
{
    let one = put_one(terms)?;
    let mut first = row;
    let mut bit = address_width;
    while bit > 0 {
        bit -= 1;
        first = put_half(terms, first, address, bit, one)?;
    }
    Ok(first)
}
