//! Texts and lists for C: they go to the front of its buffer, where they fit.
ghost use Rattle.std.specs.Prelude.{◌≡◌, ◌≢◌, length, string_bytes};
ghost use Rattle.qa_format.specs.verdicts.Report as text;
ghost use Rattle.qaudit_c.specs.Calls.{Tells};
ghost use Rattle.qaudit_c.specs.Numbers as numbers;

use crate::numbers::{fault_of, key_of, rule_of};
use crate::telling::ToldAllowance;
use qa_check::{Verdict, report, verdict_line};
use std::alloc::Global;

/// Puts the text at the front of `out`, where it fits, and returns how long it is.
pub fn put_text(bytes: &[u8], out: &mut [u8]) -> usize
    ensures length { length out.new ≡ length out.old }
    ensures told { Tells result out.old out.new bytes.now }
{
    if bytes.len() <= out.len() {
        out[..bytes.len()].copy_from_slice(bytes);
    }
    bytes.len()
}

/// Puts the items at the front of `out`, where they fit, and returns how many they are.
pub fn put_allowances(items: &[ToldAllowance], out: &mut [ToldAllowance]) -> usize
    ensures length { length out.new ≡ length out.old }
    ensures told { Tells result out.old out.new items.now }
{
    if items.len() <= out.len() {
        out[..items.len()].copy_from_slice(items);
    }
    items.len()
}

/// Puts the report of a verdict; 0 where it is out of memory.
pub fn put_report(alloc: Global, verdict: &Verdict, out: &mut [u8]) -> usize
    ensures length { length out.new ≡ length out.old }
    ensures none { result ≡ 0 → out.new ≡ out.old }
    ensures told { result ≢ 0 → Tells result out.old out.new (text.report verdict.now) }
{
    match report(alloc, verdict) {
        Ok(text) => put_text(text.as_bytes(), out),
        Err(_) => 0,
    }
}

/// Puts the first line of the report of a verdict; 0 where it is out of memory.
pub fn put_line(alloc: Global, verdict: &Verdict, out: &mut [u8]) -> usize
    ensures length { length out.new ≡ length out.old }
    ensures none { result ≡ 0 → out.new ≡ out.old }
    ensures told { result ≢ 0 → Tells result out.old out.new (text.verdict_text verdict.now) }
{
    match verdict_line(alloc, verdict) {
        Ok(text) => put_text(text.as_bytes(), out),
        Err(_) => 0,
    }
}

/// Puts the name of the rule of this number, 1 for V1; 0 where there is none.
pub fn put_rule_name(rule: u32, out: &mut [u8]) -> usize
    ensures length { length out.new ≡ length out.old }
    ensures told { Tells result out.old out.new (numbers.rule_named (numbers.rule_numbered rule)) }
{
    match rule_of(rule) {
        Some(rule) => put_text(rule.name().as_bytes(), out),
        None => put_text(&[], out),
    }
}

/// Puts the name of the fault of this number, 1 for F1; 0 where there is none.
pub fn put_fault_name(fault: u32, out: &mut [u8]) -> usize
    ensures length { length out.new ≡ length out.old }
    ensures told { Tells result out.old out.new
        (numbers.fault_named (numbers.fault_numbered fault)) }
{
    match fault_of(fault) {
        Some(fault) => put_text(fault.name().as_bytes(), out),
        None => put_text(&[], out),
    }
}

/// Puts the name of the key of this number; 0 where there is none.
pub fn put_key_name(key: u32, out: &mut [u8]) -> usize
    ensures length { length out.new ≡ length out.old }
    ensures told { Tells result out.old out.new (numbers.key_named (numbers.key_numbered key)) }
{
    match key_of(key) {
        Some(key) => put_text(key.name().as_bytes(), out),
        None => put_text(&[], out),
    }
}
