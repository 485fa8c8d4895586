ghost use Rattle.std.specs.Prelude.{◌≡◌, ◌≤◌, ◌<◌, ◌++◌, ◌∷◌, [], Ok, true, IfOk, OnOk, drop, length, map, option_map};
ghost use Rattle.pnp_model.specs.Endings.{indent, tree_line, map_line, joined, print_order, problem_part, ending};
ghost use Rattle.pnp_labels.specs.Texts.{spaced, state_text};
ghost use Rattle.std.specs.Fmt.{decimal};
ghost use Rattle.device_holdings.specs.MapRows.{row_of, owner_words};
ghost use Rattle.pnp_model.specs.Cores.{node_at, path_of};
ghost use Rattle.devnode_tree.specs.Rows as printed;
ghost use Rattle.pnp_machine.specs.Endings.{RowAdded, below_tree, ending_from, left, waiting_line, request_lines, works_lines, operation_lines, handle_lines, handles_lines};
ghost use Rattle.pnp_machine.specs.Managers.{IsOfRun};
ghost use Rattle.pnp_machine.specs.Operations.{operation_of};

use crate::machine::Machine;
use crate::operation::Operation;
use device_ids::WantOfMemory;
use device_stack::{Walk, driver_name};
use devnode_tree::{HandleRow, Handles, Node, PrintRow, Tree};
use driver_rack::Drivers;
use pnp_labels::spaced::{three, two};
use pnp_labels::{DevState, Problem, minor_text, problem_text, push_decimal, push_res, state_text};
use resource_reqs::{Owner, Res};
use start_sequence::StartWork;
use std::alloc::{AllocError, Global};
use std::marker::Model;

/// The least number of bytes of a part that is not the last one.
const PART: usize = 32_768;

/// Appends a space for each level below the root.
fn add_indent(out: &mut Vec<u8>, depth: u64) -> Result<(), WantOfMemory>
    ensures { OnOk result (out.new.items ≡ out.old.items ++ indent depth) }
{
    let Some(length) = out.len().checked_add(depth as usize) else {
        return Err(AllocError);
    };
    out.resize(length, b' ')?;
    Ok(())
}

/// Appends the words of a node's line.
fn add_words(
    out: &mut Vec<u8>,
    serial: u64,
    path: &[u8],
    state: DevState,
    problem: Option<Problem>,
) -> Result<(), WantOfMemory>
    ensures { OnOk result (out.new.items ≡ out.old.items ++ spaced (decimal serial ∷ path.now ∷ state_text state ∷ problem_part problem)) }
{
    push_decimal(out, serial)?;
    out.push(b' ')?;
    two(out, path, state_text(state))?;
    if let Some(problem) = problem {
        out.push(b' ')?;
        two(out, b"problem", problem_text(problem))?;
    }
    Ok(())
}

/// Appends the line of a node.
fn add_node(out: &mut Vec<u8>, depth: u64, node: &Node) -> Result<(), WantOfMemory>
    ensures { OnOk result (out.new.items ≡ out.old.items ++ joined (tree_line (record { depth = depth; node = node.now }) ∷ [])) }
{
    add_indent(out, depth)?;
    add_words(
        out,
        node.serial,
        node.path.bytes(),
        node.state,
        node.problem,
    )?;
    out.push(b'\n')?;
    Ok(())
}

/// Appends the line of a row of the tree.
fn add_row(out: &mut Vec<u8>, tree: &Tree, row: &PrintRow) -> Result<(), WantOfMemory>
    ensures { OnOk result (RowAdded tree.now row.now out.old.items out.new.items) }
{
    let Some(node) = tree.node(row.serial) else {
        return Ok(());
    };
    add_node(out, row.depth, node)?;
    Ok(())
}

/// Appends lines of the tree, each node after the one above it, from a row on, until there are so many bytes. Answers the row
/// that comes next.
fn add_nodes(
    out: &mut Vec<u8>,
    tree: &Tree,
    rows: &[PrintRow],
    from: usize,
    enough: usize,
) -> Result<usize, WantOfMemory>
    requires { rows.now ≡ map printed.row_of (print_order tree.now.nodes) }
    ensures text { IfOk result (λ next. out.new.items ++ joined (map tree_line (drop next (print_order tree.now.nodes))) ≡ out.old.items ++ joined (map tree_line (drop from (print_order tree.now.nodes)))) }
    ensures enough { IfOk result (λ next. next < length rows.now → enough ≤ length out.new.items) }
{
    let mut next = from;
    'nodes: while next < rows.len() && out.len() < enough {
        add_row(out, tree, &rows[next])?;
        next += 1;
    }
    Ok(next)
}

/// Appends the line of a request that waits at a device.
fn add_waiting<R: Drivers>(
    alloc: Global,
    out: &mut Vec<u8>,
    node: &Node,
    rack: &R,
    walk: &Walk,
) -> Result<(), WantOfMemory>
    ensures { OnOk result (out.new.items ≡ out.old.items ++ joined (waiting_line node.now (R.rows rack.now) walk.now.walk ∷ [])) }
{
    let driver = driver_name(alloc, rack, walk.driver_in_turn(&node.stack))?;
    let minor = minor_text(walk.minor());
    three(out, node.path.bytes(), minor, driver.bytes())?;
    out.push(b'\n')?;
    Ok(())
}

/// Appends the line of a request at a device, where it waits.
fn add_request<R: Drivers>(
    alloc: Global,
    out: &mut Vec<u8>,
    tree: &Tree,
    rack: &R,
    serial: u64,
    walk: Option<&Walk>,
) -> Result<(), WantOfMemory>
    ensures { OnOk result (out.new.items ≡ out.old.items ++ request_lines tree.now.nodes (R.rows rack.now) serial (option_map (λ w. w.now.walk) walk.entry)) }
{
    let Some(walk) = walk else {
        return Ok(());
    };
    if walk.waits().is_none() {
        return Ok(());
    }
    match tree.node(serial) {
        Some(node) => add_waiting(alloc, out, node, rack, walk),
        None => {
            out.push(b'\n')?;
            Ok(())
        }
    }
}

/// Appends the lines of the requests that wait in starts, in order of serial.
fn add_works<R: Drivers>(
    alloc: Global,
    out: &mut Vec<u8>,
    tree: &Tree,
    rack: &R,
    works: &[StartWork],
) -> Result<(), WantOfMemory>
    ensures { OnOk result (out.new.items ≡ out.old.items ++ works_lines tree.now.nodes (R.rows rack.now) works.now) }
{
    for work in works {
        add_request(alloc, out, tree, rack, work.serial(), work.walk())?;
    }
    Ok(())
}

/// Appends the line of the request of the operation that runs, where it waits.
fn add_operation<R: Drivers>(
    alloc: Global,
    out: &mut Vec<u8>,
    tree: &Tree,
    rack: &R,
    operation: &Option<Operation>,
) -> Result<(), WantOfMemory>
    ensures { OnOk result (out.new.items ≡ out.old.items ++ operation_lines tree.now.nodes (R.rows rack.now) (option_map operation_of operation.now)) }
{
    let Some(operation) = operation else {
        return Ok(());
    };
    match operation.device() {
        Some(serial) => add_request(alloc, out, tree, rack, serial, operation.walk()),
        None => Ok(()),
    }
}

/// The path of a device, or nothing where there is none.
fn path_at(tree: &Tree, serial: u64) -> &[u8]
    ensures { result.now ≡ path_of (node_at serial tree.now.nodes) }
{
    match tree.node(serial) {
        Some(node) => node.path.bytes(),
        None => b"",
    }
}

/// The word of who holds something.
fn holder(tree: &Tree, owner: Owner) -> &[u8]
    ensures { result.now ≡ owner_words tree.now.nodes owner }
{
    match owner {
        Owner::Reserved => b"reserved",
        Owner::Device(serial) => path_at(tree, serial),
    }
}

/// Appends the line of what is held, with the path of who holds it.
fn add_held(out: &mut Vec<u8>, tree: &Tree, owner: Owner, res: &Res) -> Result<(), WantOfMemory>
    ensures { OnOk result (out.new.items ≡ out.old.items ++ joined (map_line (row_of tree.now.nodes (owner, res.now)) ∷ [])) }
{
    push_res(out, res)?;
    out.push(b' ')?;
    out.extend_from_slice(holder(tree, owner))?;
    out.push(b'\n')?;
    Ok(())
}

/// Appends the lines of what is held and reserved, in the order of the map.
fn add_rows(out: &mut Vec<u8>, tree: &Tree, rows: &[(Owner, Res)]) -> Result<(), WantOfMemory>
    ensures { OnOk result (out.new.items ≡ out.old.items ++ joined (map map_line (map (row_of tree.now.nodes) rows.now))) }
{
    for row in rows {
        add_held(out, tree, row.0, &row.1)?;
    }
    Ok(())
}

/// Appends the line of a device to which handles are open.
fn add_handle(out: &mut Vec<u8>, tree: &Tree, row: &HandleRow) -> Result<(), WantOfMemory>
    ensures { OnOk result (out.new.items ≡ out.old.items ++ handle_lines tree.now.nodes (row.now ∷ [])) }
{
    out.extend_from_slice(path_at(tree, row.serial))?;
    out.push(b' ')?;
    push_decimal(out, row.count)?;
    out.push(b'\n')?;
    Ok(())
}

/// Appends the handles that are open, in order of serial, where one is.
fn add_handles(
    alloc: Global,
    out: &mut Vec<u8>,
    tree: &Tree,
    handles: &Handles,
) -> Result<(), WantOfMemory>
    ensures { OnOk result (out.new.items ≡ out.old.items ++ handles_lines tree.now.nodes handles.now) }
{
    let rows = handles.rows(alloc)?;
    if rows.is_empty() {
        return Ok(());
    }
    out.extend_from_slice(b"handles\n")?;
    for row in &rows {
        add_handle(out, tree, row)?;
    }
    Ok(())
}

/// The end of the output, which is made in parts: what of it is still to come. A contract sees its text.
#[derive(Drop)]
pub struct EndParts<'a, R: Drivers> {
    machine: &'a Machine<R>,
    rows: Vec<PrintRow>,
    next: usize,
}

impl<'a, R: Drivers> Model for EndParts<'a, R> {
    ghost use Rattle.pnp_labels.specs.Texts.{Text};
    ghost use Rattle.pnp_machine.specs.Endings.{ending_from, IsEnding};

    ghost Value = { Text };

    ghost view = { λ e. ending_from e.machine.now e.next };

    ghost invariant = { λ e. IsEnding e.machine.now e.rows.items };
}

impl<'a, R: Drivers> EndParts<'a, R> {
    /// Appends the next part, and answers whether more comes: a part has at least 32,768 bytes and the rest of a line, and the
    /// last one what is left of the tree and all below it. After want of memory it is not to be used. Cost: that of the lines.
    pub fn next_part(&mut self, out: &mut Vec<u8>) -> Result<bool, WantOfMemory>
        ensures text { IfOk result (λ more. out.new.items ++ left more self.new ≡ out.old.items ++ self.old) }
        ensures less { result ≡ Ok true → length self.new < length self.old }
    {
        let enough = out.len() + PART;
        self.next = add_nodes(out, self.machine.tree(), &self.rows, self.next, enough)?;
        if self.next < self.rows.len() {
            return Ok(true);
        }
        self.machine.add_below_tree(out)?;
        Ok(false)
    }
}

impl<R: Drivers> Machine<R> {
    /// The device nodes.
    fn tree(&self) -> &Tree
        ensures { result.now.nodes ≡ self.now.core.nodes }
    {
        self.devices.tree()
    }

    /// Appends what comes below the tree: what is held and reserved, the requests that are outstanding, and the handles that are
    /// open. Condition: the state is one of a run.
    fn add_below_tree(&self, out: &mut Vec<u8>) -> Result<(), WantOfMemory>
        requires { IsOfRun self.now }
        ensures { OnOk result (out.new.items ≡ out.old.items ++ joined (below_tree self.now)) }
    {
        let tree = self.devices.tree();
        out.extend_from_slice(b"map\n")?;
        let rows = self.devices.map_rows(self.alloc)?;
        add_rows(out, tree, &rows)?;
        out.extend_from_slice(b"outstanding\n")?;
        add_operation(self.alloc, out, tree, &self.rack, &self.operation)?;
        add_works(self.alloc, out, tree, &self.rack, self.starts.works())?;
        add_handles(self.alloc, out, tree, self.devices.handles())?;
        Ok(())
    }

    /// Begins the end of the output: appends its first line, and answers the rest. Condition: the state is one of a run.
    pub(crate) fn end_parts(&self, out: &mut Vec<u8>) -> Result<EndParts<'_, R>, WantOfMemory>
        requires { IsOfRun self.now }
        ensures { IfOk result (λ rest. out.new.items ++ rest ≡ out.old.items ++ joined (ending self.now)) }
    {
        out.extend_from_slice(b"tree\n")?;
        let rows = self.devices.tree().print_rows(self.alloc)?;
        Ok(EndParts {
            machine: self,
            rows,
            next: 0,
        })
    }
}
