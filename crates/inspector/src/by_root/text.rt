//! The text of the report by root.
ghost use Rattle.std.specs.Prelude.{◌≡◌, IfOk, string_bytes};
ghost use Rattle.std.specs.List.{flat_map};
ghost use Rattle.inspector.specs.ByRoot.{holding_text, root_line, all_line, RootsTold};

use crate::by_root::counting::{Holding, RootRow, count_by_root};
use crate::by_root::places::{root_at, root_name};
use graph_heap::{Limits, NoMemory, Reference};
use std::alloc::{AllocError, Global};

/// Returns objects and words, at the end of a line.
fn holding_text(alloc: Global, holding: &Holding) -> Result<String, AllocError>
    ensures { IfOk result (λ text. string_bytes text ≡ holding_text holding.now) }
{
    let (objects, words) = (holding.objects, holding.words);
    format!(in alloc; " objects {objects} words {words}\n")
}

/// Returns the line of a root.
fn root_line(alloc: Global, limits: &Limits, row: &RootRow) -> Result<String, AllocError>
    ensures { IfOk result (λ line. string_bytes line ≡ root_line limits.now row.now) }
{
    let name = root_name(alloc, root_at(limits, row.root))?;
    let holding = holding_text(alloc, &row.holding)?;
    format!(in alloc; "{name}{holding}")
}

/// Returns the line of all roots together.
fn all_line(alloc: Global, holding: &Holding) -> Result<String, AllocError>
    ensures { IfOk result (λ line. string_bytes line ≡ all_line holding.now) }
{
    let holding = holding_text(alloc, holding)?;
    format!(in alloc; "all{holding}")
}

/// Returns the lines of roots.
fn lines_of(alloc: Global, limits: &Limits, rows: &[RootRow]) -> Result<String, AllocError>
    ensures { IfOk result (λ text. string_bytes text ≡ flat_map (root_line limits.now) rows.now) }
{
    let mut text = String::new(alloc);
    for row in rows {
        text.push_str(root_line(alloc, limits, row)?.as_str())?;
    }
    Ok(text)
}

/// Returns the text of the report by root, in lines that end with LF. Each root that owns an object has a line: its
/// name, how many objects it owns, and how many words the blocks of these take. The lines are in falling order of words,
/// and then in the order of roots; last come the sums. Objects that can't be reached count nowhere.
pub fn roots_text(alloc: Global, graph: &Reference) -> Result<String, NoMemory>
    ensures { IfOk result (λ text. RootsTold graph.now (string_bytes text)) }
{
    let counted = count_by_root(alloc, graph)?;
    let mut text = lines_of(alloc, graph.limits(), counted.rows.as_slice())?;
    text.push_str(all_line(alloc, &counted.all)?.as_str())?;
    Ok(text)
}
