// The C interface: each export calls the function of the same name in the crate `a6plan`, and promises what that promises. A slice is a pointer and a length.
#![tactic(auto)]

ghost use Rattle.std.specs.Prelude.{◌≡◌, length};
ghost use Rattle.octets.specs.Octets.{flat};
ghost use Rattle.octets.specs.Answers.{out_by};
ghost use Rattle.names.specs.Standard.{standard_of};
ghost use Rattle.names.specs.Answers.{standard_number, standard_answer};
ghost use Rattle.a6.specs.Read.{read_number, value_of};
ghost use Rattle.a6.specs.Write.{data_of, write_number, write_answer};
ghost use Rattle.draft.specs.Read.{draft_number, draft_value};
ghost use Rattle.draft.specs.Write.{draft_data, draft_write_number, draft_answer};
ghost use Rattle.plan.specs.Check.{check_of};
ghost use Rattle.plan.specs.Faults.{fault_in, replying};
ghost use Rattle.plan.specs.Part.{owner_part};
ghost use Rattle.plan.specs.Graph.{graph_of};
ghost use Rattle.search.specs.Answers.{output_of, lives_of};
ghost use Rattle.line.specs.Writing.{line_of};
ghost use Rattle.line.specs.Reading.{record_in};
ghost use Rattle.line.specs.Answers.{read_line_answer, read_line_number, write_line_answer, write_line_number};
ghost use Rattle.forward.specs.Lookup.{lookup_number, lookup_answer};
ghost use Rattle.reverse.specs.Answers.{end_of, end_number, end_name, reverse_answer};
ghost use Rattle.collapse.specs.Fold.{fold_of};
ghost use Rattle.collapse.specs.Collapse.{number_of, collapse_answer};
ghost use Rattle.a6plan.specs.Exports.{of_name, of_part, of_line, of_check, of_table, exported_number, exported_figures, placed_figures, fault_figures, reply_figures, part_answer, value_octets, value_in, exported_read_number, exported_write_number};

// The standard form of a name in a 255-octet output; figures: its length and 0.
#[unsafe(no_mangle)]
pub extern "C" fn a6plan_standard(name: &[u8], out: &mut [u8], figures: &mut [u32]) -> u32
    ensures number { result ≡ exported_number of_name (length figures.old) (standard_number name.now (length out.old)) }
    ensures output { out.new ≡ out_by result (standard_of name.now) (length out.old) }
    ensures figured { figures.new ≡ exported_figures result (standard_answer name.now (length out.old)) (length figures.old) }
{
    a6plan::a6plan_standard(name, out, figures)
}

// The value that A6 data stands for, in 273 octets; all zero on a refusal.
#[unsafe(no_mangle)]
pub extern "C" fn a6plan_read(rdata: &[u8], value: &mut [u8]) -> u32
    ensures number { result ≡ exported_read_number (length value.old) (read_number rdata.now) }
    ensures valued { value.new ≡ out_by result (value_octets (value_of rdata.now)) (length value.old) }
{
    a6plan::a6plan_read(rdata, value)
}

// The A6 data of a value of 273 octets, with zeros after it; figures: the octets written and 0.
#[unsafe(no_mangle)]
pub extern "C" fn a6plan_write(value: &[u8], out: &mut [u8], figures: &mut [u32]) -> u32
    ensures number { result ≡ exported_write_number (length value.now) (length figures.old) (write_number (value_in value.now) (length out.old)) }
    ensures output { out.new ≡ out_by result (data_of (value_in value.now)) (length out.old) }
    ensures figured { figures.new ≡ exported_figures result (write_answer (value_in value.now) (length out.old)) (length figures.old) }
{
    a6plan::a6plan_write(value, out, figures)
}

// The value that data of the 1998 layout stands for, in 273 octets; all zero on a refusal.
#[unsafe(no_mangle)]
pub extern "C" fn a6plan_read_1998(rdata: &[u8], value: &mut [u8]) -> u32
    ensures number { result ≡ exported_read_number (length value.old) (draft_number rdata.now) }
    ensures valued { value.new ≡ out_by result (value_octets (draft_value rdata.now)) (length value.old) }
{
    a6plan::a6plan_read_1998(rdata, value)
}

// The data of a value of 273 octets in the 1998 layout, with zeros after it; figures: the octets written and 0.
#[unsafe(no_mangle)]
pub extern "C" fn a6plan_write_1998(value: &[u8], out: &mut [u8], figures: &mut [u32]) -> u32
    ensures number { result ≡ exported_write_number (length value.now) (length figures.old) (draft_write_number (value_in value.now) (length out.old)) }
    ensures output { out.new ≡ out_by result (draft_data (value_in value.now)) (length out.old) }
    ensures figured { figures.new ≡ exported_figures result (draft_answer (value_in value.now) (length out.old)) (length figures.old) }
{
    a6plan::a6plan_write_1998(value, out, figures)
}

// Whether a table is in order: 0, or 1, 2 or 3; 5 for one in order where the figures are not two. figures: for 2 and 3 the index of the record and the
// number of its field, else 0 and 0.
#[unsafe(no_mangle)]
pub extern "C" fn a6plan_check(table: &[u8], figures: &mut [u32]) -> u32
    ensures number { result ≡ exported_number of_check (length figures.old) (check_of table.now) }
    ensures figured { figures.new ≡ placed_figures (fault_figures (fault_in table.now)) (length figures.old) }
{
    a6plan::a6plan_check(table, figures)
}

// The part of the table that the owner of a record takes; figures: where it starts and its length, both 0 for the empty part.
#[unsafe(no_mangle)]
pub extern "C" fn a6plan_owner(table: &[u8], index: usize, figures: &mut [u32]) -> u32
    ensures number { result ≡ exported_number of_part (length figures.old) 0 }
    ensures figured { figures.new ≡ exported_figures result (part_answer (owner_part table.now index)) (length figures.old) }
{
    a6plan::a6plan_owner(table, index, figures)
}

// The addresses of a name in ascending order, sixteen octets each, then zeros; at the place of each, in the list of TTLs, how long it lives,
// then zeros; figures: their count, the work, and for 2 and 3 the index of the record and its field.
#[unsafe(no_mangle)]
pub extern "C" fn a6plan_lookup(
    table: &[u8],
    name: &[u8],
    limit: u32,
    out: &mut [u8],
    ttls: &mut [u32],
    figures: &mut [u32],
) -> u32
    ensures number { result ≡ exported_number of_table (length figures.old) (lookup_number table.now name.now limit (length out.old) (length ttls.old)) }
    ensures output { out.new ≡ output_of (graph_of table.now) name.now result (length out.old) }
    ensures lifetimes { ttls.new ≡ lives_of (graph_of table.now) name.now result (length ttls.old) }
    ensures figured { figures.new ≡ placed_figures (reply_figures (replying table.now (lookup_answer table.now name.now limit (length out.old) (length ttls.old)))) (length figures.old) }
{
    a6plan::a6plan_lookup(table, name, limit, out, ttls, figures)
}

// The name where the rewriting of an address's reverse name ends, then zeros; figures: its length, the number of rewrites, and for 2 and 3 the index of the record and its field.
#[unsafe(no_mangle)]
pub extern "C" fn a6plan_reverse(
    table: &[u8],
    address: &[u8],
    limit: u8,
    out: &mut [u8],
    figures: &mut [u32],
) -> u32
    ensures number { result ≡ exported_number of_table (length figures.old) (end_number (end_of table.now address.now limit (length out.old))) }
    ensures output { out.new ≡ out_by result (end_name (end_of table.now address.now limit (length out.old))) (length out.old) }
    ensures figured { figures.new ≡ placed_figures (reply_figures (replying table.now (reverse_answer table.now address.now limit (length out.old)))) (length figures.old) }
{
    a6plan::a6plan_reverse(table, address, limit, out, figures)
}

// The table with a name folded, then zeros; figures: how many records, 0, and for 2 and 3 the index of the record at fault and its field.
#[unsafe(no_mangle)]
pub extern "C" fn a6plan_collapse(
    table: &[u8],
    name: &[u8],
    out: &mut [u8],
    figures: &mut [u32],
) -> u32
    ensures number { result ≡ exported_number of_table (length figures.old) (number_of table.now name.now (length out.old)) }
    ensures output { out.new ≡ out_by result (flat (fold_of name.now table.now)) (length out.old) }
    ensures figured { figures.new ≡ placed_figures (reply_figures (replying table.now (collapse_answer table.now name.now (length out.old)))) (length figures.old) }
{
    a6plan::a6plan_collapse(table, name, out, figures)
}

// The line of an A6 record, then zeros; figures: the octets of the line, with its octet 10, and 0.
#[unsafe(no_mangle)]
pub extern "C" fn a6plan_write_line(row: &[u8], out: &mut [u8], figures: &mut [u32]) -> u32
    ensures number { result ≡ exported_number of_line (length figures.old) (write_line_number row.now (length out.old)) }
    ensures output { out.new ≡ out_by result (line_of row.now) (length out.old) }
    ensures figured { figures.new ≡ exported_figures result (write_line_answer row.now (length out.old)) (length figures.old) }
{
    a6plan::a6plan_write_line(row, out, figures)
}

// The record of a line, then zeros; figures: 1 and 0.
#[unsafe(no_mangle)]
pub extern "C" fn a6plan_read_line(line: &[u8], out: &mut [u8], figures: &mut [u32]) -> u32
    ensures number { result ≡ exported_number of_line (length figures.old) (read_line_number line.now (length out.old)) }
    ensures output { out.new ≡ out_by result (record_in line.now) (length out.old) }
    ensures figured { figures.new ≡ exported_figures result (read_line_answer line.now (length out.old)) (length figures.old) }
{
    a6plan::a6plan_read_line(line, out, figures)
}
