//! Warnings of a configuration that is accepted, on standard error.
use config_core::read_plan;
use config_warnings::{Warning, warnings_of};
use plan_types::Plan;

/// Warns on standard error of what a plan lacks or has without effect, in written order, with a line for each. If
/// memory runs out, nothing is said.
pub fn warn_of_plan(rt: &(impl AllocGlobal + Eprint), file: &str, text: &str, plan: &Plan) {
    if let Ok(warnings) = warnings_of(rt.alloc(), text, plan) {
        for warning in &warnings {
            let Warning { line, said } = warning;
            let _written = eprintln!(rt; "l4proxy: {file}:{line}: warning: {said}");
        }
    }
}

/// Warns of what a text lacks that is right. Nothing is said of another one, or if memory runs out.
pub fn warn_of_text(rt: &(impl AllocGlobal + Eprint), file: &str, text: &str) {
    if let Ok(plan) = read_plan(rt.alloc(), text) {
        warn_of_plan(rt, file, text, &plan);
    }
}
