// Pipes.
ghost use Rattle.std.specs.Prelude.{◌≡◌, ◌++◌, OnOk, string_bytes, codes, map};
ghost use Rattle.mql_ast.specs.Printed.{pipe_text, source_text, branches_text, fetch_text, how_text};
ghost use Rattle.mql_ast.specs.Trees.{pipe_tree, source_tree, branches};

use crate::names::Name;
use crate::pipes::{How, Pipe, Source};
use crate::printing::operations::print_ops;
use std::alloc::AllocError;

/// Prints a pipe: its source, and then its operations.
#[cycle(printing)]
pub fn print_pipe(out: &mut String, pipe: &Pipe) -> Result<(), AllocError>
    ensures text { OnOk result (string_bytes out.new ≡ string_bytes out.old ++ pipe_text (pipe_tree pipe.now)) }
{
    print_source(out, &pipe.source)?;
    print_ops(out, pipe.ops.as_slice())
}

#[cycle(printing)]
fn print_source(out: &mut String, source: &Source) -> Result<(), AllocError>
    ensures text { OnOk result (string_bytes out.new ≡ string_bytes out.old ++ source_text (source_tree source.now)) }
{
    match source {
        Source::Fetch {
            at: _,
            schema,
            metric,
        } => print_fetch(out, schema, metric),
        Source::Branches {
            at: _,
            pipes,
            how,
            how_at: _,
        } => {
            out.push_str("{")?;
            print_branches(out, pipes.as_slice())?;
            print_how(out, *how)
        }
    }
}

// Branches, with a semicolon and a blank between each two.
#[cycle(printing)]
fn print_branches(out: &mut String, pipes: &[Pipe]) -> Result<(), AllocError>
    ensures text { OnOk result (string_bytes out.new
        ≡ string_bytes out.old ++ branches_text (branches (map pipe_tree pipes.now))) }
{
    let Some((first, rest)) = pipes.split_first() else {
        return Ok(());
    };
    print_pipe(out, first)?;
    for pipe in rest {
        out.push_str("; ")?;
        print_pipe(out, pipe)?;
    }
    Ok(())
}

fn print_fetch(out: &mut String, schema: &Name, metric: &Name) -> Result<(), AllocError>
    ensures text { OnOk result (string_bytes out.new ≡ string_bytes out.old ++ fetch_text schema.now metric.now) }
{
    out.push_str("fetch ")?;
    out.push_str(schema.text.as_str())?;
    out.push_str("::")?;
    out.push_str(metric.text.as_str())
}

// What ends the branches.
fn print_how(out: &mut String, how: How) -> Result<(), AllocError>
    ensures text { OnOk result (string_bytes out.new ≡ string_bytes out.old ++ (codes "} | " ++ how_text how)) }
{
    out.push_str("} | ")?;
    out.push_str(how.word())
}
