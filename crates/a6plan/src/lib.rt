// What the C interface exports (the crate `a6plan_c`): each public function takes slices and numbers, asks nothing of its caller, and returns the number of 01 (What comes back).
#![tactic(auto)]

ghost use Rattle.std.specs.Prelude.{◌≡◌, ◌≤◌, eqb, if◌then◌else◌, map, length, MatchResult};
ghost use Rattle.octets.specs.Octets.{blank, flat};
ghost use Rattle.octets.specs.Answers.{answer_by, out_by};
ghost use Rattle.octets.specs.Refusals.{code_of, number_of as earned, answered};
ghost use Rattle.names.specs.Standard.{standard_of};
ghost use Rattle.names.specs.Answers.{standard_number, standard_answer};
ghost use Rattle.a6.specs.Read.{read_number, value_of};
ghost use Rattle.a6.specs.Write.{data_of, write_number, write_answer};
ghost use Rattle.a6.specs.Parts.{value_at, lent_value, laid_of, laid_number};
ghost use Rattle.draft.specs.Read.{draft_number, draft_value};
ghost use Rattle.draft.specs.Write.{draft_data, draft_write_number, draft_answer};
ghost use Rattle.plan.specs.Check.{check_of};
ghost use Rattle.plan.specs.Faults.{fault_in, replying, replied};
ghost use Rattle.plan.specs.Part.{owner_part};
ghost use Rattle.plan.specs.Graph.{graph_of};
ghost use Rattle.search.specs.Answers.{output_of, lives_of};
ghost use Rattle.line.specs.Writing.{line_of};
ghost use Rattle.line.specs.Reading.{record_in};
ghost use Rattle.line.specs.Answers.{read_line_answer, read_line_number, write_line_answer, write_line_number};
ghost use Rattle.forward.specs.Lookup.{lookup_number, lookup_answer};
ghost use Rattle.reverse.specs.Answers.{end_of, end_number, end_name, reverse_answer};
ghost use Rattle.collapse.specs.Fold.{fold_of};
ghost use Rattle.collapse.specs.Collapse.{number_of, collapse_answer};
ghost use Rattle.a6plan.specs.Exports.{of_name, of_part, of_line, of_check, of_table, exported_number, exported_figures, placed_figures, fault_figures, reply_figures, part_answer, value_size, value_octets, value_in, exported_read_number, exported_write_number};
ghost use Rattle.a6plan.specs.Keeping.{kept_for};

use a6::inside::{Found, Lent};
use octets::{Done, Refusal};
use plan::{Refused, Reply};

// The octets of an A6 value at this interface.
const VALUE: usize = 273;

// The standard form of a name in a 255-octet output; figures: its length and 0.
pub fn a6plan_standard(name: &[u8], out: &mut [u8], figures: &mut [u32]) -> u32
    ensures number { result ≡ exported_number of_name (length figures.old) (standard_number name.now (length out.old)) }
    ensures output { out.new ≡ out_by result (standard_of name.now) (length out.old) }
    ensures figured { figures.new ≡ exported_figures result (standard_answer name.now (length out.old)) (length figures.old) }
{
    report_answer(
        &[Refusal::Given],
        names::standard_form(name, out),
        out,
        figures,
    )
}

// The value that A6 data stands for, in 273 octets; all zero on a refusal.
pub fn a6plan_read(rdata: &[u8], value: &mut [u8]) -> u32
    ensures number { result ≡ exported_read_number (length value.old) (read_number rdata.now) }
    ensures valued { value.new ≡ out_by result (value_octets (value_of rdata.now)) (length value.old) }
{
    read_into(a6::inside::check(rdata), value)
}

// The A6 data of a value of 273 octets, with zeros after it; figures: the octets written and 0.
pub fn a6plan_write(value: &[u8], out: &mut [u8], figures: &mut [u32]) -> u32
    ensures number { result ≡ exported_write_number (length value.now) (length figures.old) (write_number (value_in value.now) (length out.old)) }
    ensures output { out.new ≡ out_by result (data_of (value_in value.now)) (length out.old) }
    ensures figured { figures.new ≡ exported_figures result (write_answer (value_in value.now) (length out.old)) (length figures.old) }
{
    write_from(value, 0, out, figures)
}

// The value that data of the 1998 layout stands for, in 273 octets; all zero on a refusal.
pub fn a6plan_read_1998(rdata: &[u8], value: &mut [u8]) -> u32
    ensures number { result ≡ exported_read_number (length value.old) (draft_number rdata.now) }
    ensures valued { value.new ≡ out_by result (value_octets (draft_value rdata.now)) (length value.old) }
{
    read_into(draft::inside::check(rdata), value)
}

// The data of a value of 273 octets in the 1998 layout, with zeros after it; figures: the octets written and 0.
pub fn a6plan_write_1998(value: &[u8], out: &mut [u8], figures: &mut [u32]) -> u32
    ensures number { result ≡ exported_write_number (length value.now) (length figures.old) (draft_write_number (value_in value.now) (length out.old)) }
    ensures output { out.new ≡ out_by result (draft_data (value_in value.now)) (length out.old) }
    ensures figured { figures.new ≡ exported_figures result (draft_answer (value_in value.now) (length out.old)) (length figures.old) }
{
    write_from(value, 16, out, figures)
}

// Whether a table is in order: 0, or 1, 2 or 3; 5 for one in order where the figures are not two. figures: for 2 and 3 the index of the record and the
// number of its field, else 0 and 0.
pub fn a6plan_check(table: &[u8], figures: &mut [u32]) -> u32
    ensures number { result ≡ exported_number of_check (length figures.old) (check_of table.now) }
    ensures figured { figures.new ≡ placed_figures (fault_figures (fault_in table.now)) (length figures.old) }
{
    let outcome = plan::check(table);
    let fault = Reply::from(outcome).fault;
    put_figures(&[fault.index, u32::from(fault.field)], figures);
    let earlier = [Refusal::Length, Refusal::Record, Refusal::Repeat];
    let told = outcome.map_err(|refused| refused.refusal);
    exported(2, &earlier, figures.len(), &told)
}

// The part of the table that the owner of a record takes; figures: where it starts and its length, both 0 for the empty part.
pub fn a6plan_owner(table: &[u8], index: usize, figures: &mut [u32]) -> u32
    ensures number { result ≡ exported_number of_part (length figures.old) 0 }
    ensures figured { figures.new ≡ exported_figures result (part_answer (owner_part table.now index)) (length figures.old) }
{
    let length = plan::owner(table, index).len();
    let offset = plan::inside::owner_place(index, length);
    let done = Done {
        count: offset as u32,
        work: length as u32,
    };
    figure(&[], Ok(done), figures)
}

// The addresses of a name in ascending order, sixteen octets each, then zeros; at the place of each, in the list of TTLs, how long it lives,
// then zeros; figures: their count, the work, and for 2 and 3 the index of the record and its field.
pub fn a6plan_lookup(
    table: &[u8],
    name: &[u8],
    limit: u32,
    out: &mut [u8],
    ttls: &mut [u32],
    figures: &mut [u32],
) -> u32
    ensures number { result ≡ exported_number of_table (length figures.old) (lookup_number table.now name.now limit (length out.old) (length ttls.old)) }
    ensures output { out.new ≡ output_of (graph_of table.now) name.now result (length out.old) }
    ensures lifetimes { ttls.new ≡ lives_of (graph_of table.now) name.now result (length ttls.old) }
    ensures figured { figures.new ≡ placed_figures (reply_figures (replying table.now (lookup_answer table.now name.now limit (length out.old) (length ttls.old)))) (length figures.old) }
{
    let outcome = forward::lookup(table, name, limit, out, ttls);
    keep(4, figures.len(), ttls);
    report(outcome, out, figures)
}

// The name where the rewriting of an address's reverse name ends, then zeros; figures: its length, the number of rewrites, and for 2 and 3 the index of the record and its field.
pub fn a6plan_reverse(
    table: &[u8],
    address: &[u8],
    limit: u8,
    out: &mut [u8],
    figures: &mut [u32],
) -> u32
    ensures number { result ≡ exported_number of_table (length figures.old) (end_number (end_of table.now address.now limit (length out.old))) }
    ensures output { out.new ≡ out_by result (end_name (end_of table.now address.now limit (length out.old))) (length out.old) }
    ensures figured { figures.new ≡ placed_figures (reply_figures (replying table.now (reverse_answer table.now address.now limit (length out.old)))) (length figures.old) }
{
    report(reverse::lookup(table, address, limit, out), out, figures)
}

// The table with a name folded, then zeros; figures: how many records, 0, and for 2 and 3 the index of the record at fault and its field.
pub fn a6plan_collapse(table: &[u8], name: &[u8], out: &mut [u8], figures: &mut [u32]) -> u32
    ensures number { result ≡ exported_number of_table (length figures.old) (number_of table.now name.now (length out.old)) }
    ensures output { out.new ≡ out_by result (flat (fold_of name.now table.now)) (length out.old) }
    ensures figured { figures.new ≡ placed_figures (reply_figures (replying table.now (collapse_answer table.now name.now (length out.old)))) (length figures.old) }
{
    report(collapse::collapse(table, name, out), out, figures)
}

// The line of an A6 record, then zeros; figures: the octets of the line, with its octet 10, and 0.
pub fn a6plan_write_line(row: &[u8], out: &mut [u8], figures: &mut [u32]) -> u32
    ensures number { result ≡ exported_number of_line (length figures.old) (write_line_number row.now (length out.old)) }
    ensures output { out.new ≡ out_by result (line_of row.now) (length out.old) }
    ensures figured { figures.new ≡ exported_figures result (write_line_answer row.now (length out.old)) (length figures.old) }
{
    report_answer(&[], line::write_line(row, out), out, figures)
}

// The record of a line, then zeros; figures: 1 and 0.
pub fn a6plan_read_line(line: &[u8], out: &mut [u8], figures: &mut [u32]) -> u32
    ensures number { result ≡ exported_number of_line (length figures.old) (read_line_number line.now (length out.old)) }
    ensures output { out.new ≡ out_by result (record_in line.now) (length out.old) }
    ensures figured { figures.new ≡ exported_figures result (read_line_answer line.now (length out.old)) (length figures.old) }
{
    report_answer(&[], line::read_line(line, out), out, figures)
}

// What a reader's tests say at this interface: 5 in front, the number of a refusal, and the value of 273 octets where they find its parts, else zeros.
fn read_into(outcome: Result<Found, Refusal>, value: &mut [u8]) -> u32
    ensures number { result ≡ exported_read_number (length value.old) (earned outcome.entry) }
    ensures valued { MatchResult outcome.entry (λ found. value.new ≡ out_by result (value_octets (value_at found)) (length value.old)) (λ _. value.new ≡ blank (length value.old)) }
{
    octets::clear(value);
    if value.len() != VALUE {
        return number(Refusal::Output);
    }
    match outcome {
        Ok(found) => {
            put_value(found, value);
            0
        }
        Err(refusal) => number(refusal),
    }
}

// A value over zeros, by the parts that are found in data. They are put in place: a `Value` made of them first would be copied here in as many lines.
fn put_value(found: Found, value: &mut [u8])
    requires { value.old ≡ blank value_size }
    ensures { value.new ≡ value_octets (value_at found.entry) }
{
    a6::inside::put_address(found.prefix, found.suffix, &mut value[1..17]);
    let length = a6::inside::put_name(found.name, found.prefix, found.standard, &mut value[18..]);
    value[0] = found.prefix;
    value[17] = length;
}

// The data of a value of 273 octets in the layout that has `before` octets of the address before the prefix length, with zeros after it; figures: the octets
// written and 0. 5 comes before everything else.
fn write_from(octets: &[u8], before: usize, out: &mut [u8], figures: &mut [u32]) -> u32
    requires { before ≤ 16 }
    ensures number { result ≡ exported_write_number (length octets.now) (length figures.old) (laid_number (value_in octets.now) before (length out.old)) }
    ensures output { out.new ≡ out_by result (laid_of (value_in octets.now) before) (length out.old) }
    ensures figured { figures.new ≡ exported_figures result (answer_by (laid_number (value_in octets.now) before (length out.old)) (length (laid_of (value_in octets.now) before)) 0) (length figures.old) }
{
    match octets.as_array() {
        Some(octets) if figures.len() == 2 => {
            let outcome = a6::inside::lay(value_in(octets), before, out);
            figure(&[], outcome, figures)
        }
        _ => {
            octets::clear(out);
            octets::clear(figures);
            number(Refusal::Output)
        }
    }
}

// The value that so many octets hold, with its octets lent.
#[tactic(auto, unfolding(crate::specs::Exports::value_in))]
fn value_in(octets: &[u8; VALUE]) -> Lent<'_>
    ensures { lent_value result ≡ value_in octets.now }
{
    Lent {
        prefix: octets[0],
        address: octets[1..17].as_array().unwrap(),
        octets: octets[18..].as_array().unwrap(),
        length: octets[17],
    }
}

// The number and the four figures of what comes of an operation on a table; the output is zeros where the figures are not four, and stays else: an operation
// that refuses has cleared it.
fn report(outcome: Result<Done, Refused>, out: &mut [u8], figures: &mut [u32]) -> u32
    ensures number { result ≡ exported_number of_table (length figures.old) (replied outcome).answer.number }
    ensures output { out.new ≡ kept_for 4 (length figures.old) out.old }
    ensures figured { figures.new ≡ placed_figures (reply_figures (replied outcome)) (length figures.old) }
{
    keep(4, figures.len(), out);
    let reply = Reply::from(outcome);
    let all = [
        reply.answer.count,
        reply.answer.work,
        reply.fault.index,
        u32::from(reply.fault.field),
    ];
    put_figures(&all, figures);
    let earlier = [
        Refusal::Length,
        Refusal::Record,
        Refusal::Repeat,
        Refusal::Given,
    ];
    let told = outcome.map_err(|refused| refused.refusal);
    exported(4, &earlier, figures.len(), &told)
}

// The number and the two figures of what comes of an operation; `earlier` are the refusals that come before `Output`. The output is zeros where the figures are
// not two, and stays else: an operation that refuses has cleared it.
fn report_answer(
    earlier: &[Refusal],
    outcome: Result<Done, Refusal>,
    out: &mut [u8],
    figures: &mut [u32],
) -> u32
    ensures number { result ≡ exported_number (record { wanted = 2; earlier = map code_of earlier.now }) (length figures.old) (answered outcome).number }
    ensures output { out.new ≡ kept_for 2 (length figures.old) out.old }
    ensures figured { figures.new ≡ exported_figures result (answered outcome) (length figures.old) }
{
    keep(2, figures.len(), out);
    figure(earlier, outcome, figures)
}

// The two figures of what comes of an operation, and its number at this interface; `earlier` are the refusals that come before `Output`.
fn figure(earlier: &[Refusal], outcome: Result<Done, Refusal>, figures: &mut [u32]) -> u32
    ensures number { result ≡ exported_number (record { wanted = 2; earlier = map code_of earlier.now }) (length figures.old) (answered outcome).number }
    ensures figured { figures.new ≡ exported_figures result (answered outcome) (length figures.old) }
{
    match outcome {
        Ok(done) => put_figures(&[done.count, done.work], figures),
        Err(_) => octets::clear(figures),
    }
    exported(2, earlier, figures.len(), &outcome)
}

// Zeros where the figures, n of them, are not as many as are wanted.
fn keep<T: octets::Zero>(wanted: usize, n: usize, out: &mut [T])
    ensures { out.new ≡ (if eqb n wanted then out.old else T.zeros (length out.old)) }
{
    if n != wanted {
        octets::clear(out);
    }
}

// Figures put where there are as many places; else zeros.
#[tactic(auto, unfolding(crate::specs::Exports::placed_figures))]
fn put_figures(all: &[u32], figures: &mut [u32])
    ensures { figures.new ≡ placed_figures all.now (length figures.old) }
{
    if figures.len() == all.len() {
        figures.copy_from_slice(all);
    } else {
        octets::clear(figures);
    }
}

// The number of what comes of an operation that wants so many figures and has n places for them; `earlier` are the refusals that come before `Output`.
fn exported<T>(wanted: usize, earlier: &[Refusal], n: usize, outcome: &Result<T, Refusal>) -> u32
    ensures { result ≡ exported_number (record { wanted = wanted; earlier = map code_of earlier.now }) n (earned outcome.now) }
{
    match outcome {
        Ok(_) if n == wanted => 0,
        Err(refusal) if n == wanted || earlier.contains(refusal) => number(*refusal),
        _ => number(Refusal::Output),
    }
}

// The number of a refusal.
fn number(refusal: Refusal) -> u32
    ensures { result ≡ code_of refusal }
{
    refusal as u32
}
