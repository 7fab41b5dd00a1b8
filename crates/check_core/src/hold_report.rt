//! What `pathserve check` prints of objects with holds.

ghost use Rattle.std.specs.Prelude.{◌≡◌, ◌≤◌, ◌++◌, ℕ, List, IfOk, length};
ghost use Rattle.decl_core.specs.ObjectMap.{object_of, objects_of};
ghost use Rattle.decl_core.specs.HoldMap.{all_rules_of, rules_of};
ghost use Rattle.decl_core.specs.Refusals.{IsWhy};
ghost use Rattle.check_core.specs.Report.{count_line};
ghost use Rattle.check_core.specs.declared.report.CheckEnd.TheVariants.{Counted};
ghost use Rattle.check_core.specs.HeldReport.{AreHeldReported, IsHeldCheck, IsHeldReported};

use crate::hold_lines::push_rules;
use crate::report::{CheckEnd, push_accepted, push_unseparated};
use decl_core::analyse::{Accepted, ObjectRefusal, Refused, analyse};
use decl_core::hold::Rules;
use decl_core::object::Object;
use std::alloc::{AllocError, Global};
use value_core::reply::push_number;

/// The report of objects, and how it ends.
#[derive(Drop)]
pub struct HeldReport {
    pub end: CheckEnd,
    pub text: Vec<u8>,
}

// Adds the lines of an accepted object.
fn push_kept(out: &mut Vec<u8>, accepted: &Accepted, rules: &Rules) -> Result<usize, AllocError>
    ensures { IfOk result (λ count. (text : List ℕ) × (out.new.items ≡ out.old.items ++ text)
        × IsHeldReported (object_of accepted.now) (rules_of rules.now) count text) }
{
    push_accepted(out, accepted)?;
    push_rules(out, accepted.object(), rules)?;
    Ok(0)
}

// Adds the line of an object that is refused.
fn push_refused(out: &mut Vec<u8>, refused: &Refused, rules: &Rules) -> Result<usize, AllocError>
    requires { IsWhy (object_of refused.now.object) refused.now.why }
    ensures { IfOk result (λ count. (text : List ℕ) × (out.new.items ≡ out.old.items ++ text)
        × IsHeldReported (object_of refused.now.object) (rules_of rules.now) count text) }
{
    match refused.why {
        ObjectRefusal::Memory => Err(AllocError),
        ObjectRefusal::Unseparated(first, second, part) => {
            push_unseparated(out, &refused.object, first, second, part)?;
            Ok(1)
        }
    }
}

// Adds the lines of an object, and gives how many of it are refused.
fn push_object(
    alloc: Global,
    out: &mut Vec<u8>,
    object: Object,
    rules: &Rules,
) -> Result<usize, AllocError>
    ensures { IfOk result (λ count. (text : List ℕ) × (out.new.items ≡ out.old.items ++ text)
        × IsHeldReported (object_of object) (rules_of rules.now) count text) }
{
    match analyse(alloc, object) {
        Ok(accepted) => {
            let count = push_kept(out, &accepted, rules)?;
            Ok(count)
        }
        Err(refused) => {
            let count = push_refused(out, &refused, rules)?;
            Ok(count)
        }
    }
}

// The lines of objects, and how many are refused. Behind the last of the rules there is none.
fn report_objects(
    alloc: Global,
    objects: Vec<Object>,
    rules: &[Rules],
) -> Result<(Vec<u8>, usize), AllocError>
    requires { length objects.items ≡ length rules.now }
    ensures { IfOk result (λ r. AreHeldReported (objects_of objects.items) (all_rules_of rules.now) r.1 r.0.items) }
{
    let mut text = Vec::new(alloc);
    let mut refused = 0;
    let mut left = rules;
    for object in objects {
        let Some((own, rest)) = left.split_first() else {
            return Err(AllocError);
        };
        refused += push_object(alloc, &mut text, object, own)?;
        left = rest;
    }
    Ok((text, refused))
}

// The lines of objects and their count, and how that ends.
fn counted_report(
    alloc: Global,
    objects: Vec<Object>,
    rules: &[Rules],
) -> Result<HeldReport, AllocError>
    requires { length objects.items ≡ length rules.now }
    ensures { IfOk result (λ r. (refused : ℕ) × (text : List ℕ)
        × AreHeldReported (objects_of objects.items) (all_rules_of rules.now) refused text
        × (r.end ≡ Counted (length rules.now) refused)
        × (r.text.items ≡ text ++ count_line (length rules.now) refused)) }
{
    let count = rules.len();
    let (mut text, refused) = report_objects(alloc, objects, rules)?;
    push_number(&mut text, b"", count as u64)?;
    push_number(&mut text, b" objects, ", refused as u64)?;
    text.extend_from_slice(b" refused\n")?;
    Ok(HeldReport {
        end: CheckEnd::Counted {
            objects: count,
            refused,
        },
        text,
    })
}

/// The report of the objects of a file, and of what each says of clients that are gone and of time: per object what
/// `check_report` writes, and behind the pairs of an accepted one `hold OP until A, B` for each hold, with `by any`
/// behind it where anybody may end it, and `every S call OP`; and last `N objects, M refused`. There are as many rules as
/// objects.
///
/// The error is that memory was refused.
pub fn held_report(
    alloc: Global,
    objects: Vec<Object>,
    rules: &[Rules],
) -> Result<HeldReport, AllocError>
    requires { length objects.items ≡ length rules.now }
    ensures { IfOk result (λ r. IsHeldCheck (objects_of objects.items) (all_rules_of rules.now) r.end r.text.items) }
{
    let report = counted_report(alloc, objects, rules)?;
    Ok(report)
}
