//! The places behind runs of one class of bytes.
ghost use Rattle.std.specs.Prelude.{◌≡◌, ◌<◌, ◌≤◌, length};
ghost use Rattle.std.specs.Char.{is_ascii_digit};
ghost use Rattle.ir_token.specs.Bytes as spec;
ghost use Rattle.ir_token.specs.Ends.{past};
ghost use Rattle.ir_token.specs.LeftOut as left;

use crate::bytes::{ends_comment, is_blank, is_label, is_meta, is_word};

pub fn past_word(text: &[u8], at: usize) -> usize
    requires { at ≤ length text.now }
    ensures value { result ≡ past spec.is_word text.now at }
    ensures within { (at ≤ result) × (result ≤ length text.now) }
{
    let mut end = at;
    while end < text.len() && is_word(text[end]) {
        end += 1;
    }
    end
}

pub fn past_label(text: &[u8], at: usize) -> usize
    requires { at ≤ length text.now }
    ensures value { result ≡ past spec.is_label text.now at }
    ensures within { (at ≤ result) × (result ≤ length text.now) }
{
    let mut end = at;
    while end < text.len() && is_label(text[end]) {
        end += 1;
    }
    end
}

pub fn past_meta(text: &[u8], at: usize) -> usize
    requires { at ≤ length text.now }
    ensures value { result ≡ past spec.is_meta text.now at }
    ensures within { (at ≤ result) × (result ≤ length text.now) }
{
    let mut end = at;
    while end < text.len() && is_meta(text[end]) {
        end += 1;
    }
    end
}

pub fn past_digits(text: &[u8], at: usize) -> usize
    requires { at ≤ length text.now }
    ensures value { result ≡ past is_ascii_digit text.now at }
    ensures within { (at ≤ result) × (result ≤ length text.now) }
{
    let mut end = at;
    while end < text.len() && text[end].is_ascii_digit() {
        end += 1;
    }
    end
}

/// The place of the next double quote.
pub fn past_inside(text: &[u8], at: usize) -> usize
    requires { at ≤ length text.now }
    ensures value { result ≡ past spec.is_inside text.now at }
    ensures within { (at ≤ result) × (result ≤ length text.now) }
{
    let mut end = at;
    while end < text.len() && text[end] != b'"' {
        end += 1;
    }
    end
}

pub fn past_blanks(text: &[u8], at: usize) -> usize
    requires { at ≤ length text.now }
    ensures value { result ≡ past spec.is_blank text.now at }
    ensures within { (at ≤ result) × (result ≤ length text.now) }
{
    let mut end = at;
    while end < text.len() && is_blank(text[end]) {
        end += 1;
    }
    end
}

/// The first place that is in no blank and in no comment.
#[tactic(auto, using(crate::proofs::Gaps::gap_moves, crate::proofs::Gaps::gap_none, crate::proofs::Gaps::gap_end))]
pub fn past_gap(text: &[u8], at: usize) -> usize
    requires { at ≤ length text.now }
    ensures value { result ≡ left.past_gap text.now at }
    ensures within { (at ≤ result) × (result ≤ length text.now) }
{
    let mut end = at;
    let mut in_comment = false;
    while end < text.len() && (in_comment || is_blank(text[end]) || text[end] == b';') {
        in_comment = if in_comment {
            !ends_comment(text[end])
        } else {
            text[end] == b';'
        };
        end += 1;
    }
    end
}
