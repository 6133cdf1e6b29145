ghost use Rattle.std.specs.Prelude.{◌≡◌, ◌++◌, true, string_bytes, IfOk, OnOk};
ghost use Rattle.std.specs.List.{flat_map};
ghost use Rattle.pg_index.specs.Report.{claim_line, method_name, report_of};

use block_claim::Claim;
use opclass::Method;
use std::alloc::{AllocError, Global};

/// What a build says on standard output: a line of each of these claims, none where they aren't
/// asked for, and then a line of the index's method, its rows and its blocks.
pub fn report(
    alloc: Global,
    claims: &[Claim],
    method: Method,
    rows: u64,
    blocks: u32,
) -> Result<String, AllocError>
    ensures { IfOk result (λ text.
        string_bytes text ≡ report_of true claims.now method rows blocks) }
{
    let mut text = claim_lines(alloc, claims)?;
    let method = name_of(method);
    let built = format!(in alloc; "built {method}: {rows} rows, {blocks} blocks\n")?;
    text.push_str(built.as_str())?;
    Ok(text)
}

// A line of each claim.
fn claim_lines(alloc: Global, claims: &[Claim]) -> Result<String, AllocError>
    ensures { IfOk result (λ text. string_bytes text ≡ flat_map claim_line claims.now) }
{
    let mut text = String::new(alloc);
    for claim in claims {
        push_claim(alloc, &mut text, claim)?;
    }
    Ok(text)
}

// Adds the line of a claim.
fn push_claim(alloc: Global, text: &mut String, claim: &Claim) -> Result<(), AllocError>
    ensures { OnOk result (string_bytes text.new ≡ string_bytes text.old ++ claim_line claim.now) }
{
    let Claim {
        worker,
        first,
        size,
    } = *claim;
    let line = format!(in alloc; "claim {worker} {first} {size}\n")?;
    text.push_str(line.as_str())
}

// A method as CREATE INDEX names it.
fn name_of(method: Method) -> &'static str
    ensures { result.now ≡ method_name method }
{
    match method {
        Method::BTree => "btree",
        Method::Brin => "brin",
        Method::Gin => "gin",
    }
}
