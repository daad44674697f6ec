// Heads, judged by what was asked for.
ghost use Rattle.std.specs.Prelude.{◌≡◌, IfSome, IfOk, IfErr, Some};
ghost use Rattle.range_text.specs.declared.answers.ContentRange.{ContentRange as Content};
ghost use Rattle.range_client.specs.Demands.{IsOrdered};
ghost use Rattle.range_client.specs.Judged.{IsGood, IsWanted, IsWrong, Lacks, TellsRange, tells_length};

use crate::demands::Demand;
use crate::faults::BadKind;
use itoa::Buffer;
use range_text::{ContentRange, read_content_range};
use response_head::Response;

/// What a reply that was asked for tells: the size of the file, and how many bytes its body has.
#[derive(Clone, Copy)]
pub(crate) struct Told {
    pub(crate) size: u64,
    pub(crate) count: u64,
}

/// Judges the bytes of a head.
pub(crate) fn judge(head: &[u8], demand: Demand) -> Result<Told, BadKind>
    requires { IsOrdered demand }
    ensures good { IfOk result (IsGood demand head.now) }
    ensures wrong { IfErr result (IsWrong demand head.now) }
{
    match Response::read(head) {
        Some(response) => judge_response(&response, demand),
        None => Err(BadKind::Head),
    }
}

/// Judges a response.
fn judge_response(response: &Response<'_>, demand: Demand) -> Result<Told, BadKind>
    requires { IsOrdered demand }
    ensures wanted { IfOk result (IsWanted demand response.now) }
    ensures lacks { IfErr result (Lacks demand response.now) }
{
    let status = response.status();
    if !demand.is_status(status) {
        return Err(BadKind::Status);
    }
    let Some(told) = range_told(response) else {
        return Err(BadKind::ContentRange);
    };
    let Some(size) = demand.size_told(status, told) else {
        return Err(BadKind::ContentRange);
    };
    let count = demand.length_wanted(status);
    if !tells_length(response, count) {
        return Err(BadKind::Length);
    }
    Ok(Told { size, count })
}

/// What its one Content-Range field tells.
fn range_told(response: &Response<'_>) -> Option<ContentRange>
    ensures some { IfSome result (TellsRange response.now) }
    ensures only { (range : Content) → TellsRange response.now range → result ≡ Some range }
{
    read_content_range(response.only_value(b"content-range")?)
}

/// Whether its one Content-Length field is just this number.
fn tells_length(response: &Response<'_>, count: u64) -> bool
    ensures { result ≡ tells_length response.now count }
{
    let Some(value) = response.only_value(b"content-length") else {
        return false;
    };
    let mut text = Buffer::new();
    value == text.format(count).as_bytes()
}
