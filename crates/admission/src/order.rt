// Whether a table and a line are in order, and what a line in order tells of a tenant.
ghost use Rattle.std.specs.Prelude.{◌≡◌, ◌&&◌, ◌≤◌, length};
ghost use Rattle.table.specs.Table.{in_order?};
ghost use Rattle.line.specs.Line.{waiting_in};
ghost use Rattle.line.specs.Order.{waits as Order·waits, line_in_order?};
ghost use Rattle.line.specs.Changes.{InForm};

use table::NODES;

// Whether the table is in order, and the line over it.
pub fn both_in_order(height: u16, table: &[u16], line: &[u16]) -> bool
    requires { (height ≤ 12) × (length table.now ≡ 4096) × (length line.now ≡ 193) }
    ensures { result ≡ (in_order? height table.now && line_in_order? height table.now line.now) }
{
    let mut owners = [0u16; NODES];
    let found = survey::survey(height, table, &mut owners);
    found.in_order && line::in_order(height, table, line)
}

// Whether the tenant is in line.
pub fn waits(line: &[u16], tenant: u16) -> bool
    requires { InForm line.now }
    ensures { result ≡ Order·waits tenant (waiting_in line.now) }
{
    let n = line[0] as usize;
    line::place_of(line, tenant) < n
}
