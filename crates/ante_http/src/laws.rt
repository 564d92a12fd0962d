//! Laws of what bytes begin with.
ghost use Rattle.std.specs.Prelude.{◌≡◌, ◌<◌, ◌≤◌, ℕ, List, ◌++◌, length};
ghost use Rattle.ante_http.specs.declared.answer.RequestSpan.{RequestSpan};
ghost use Rattle.ante_http.specs.declared.answer.HeadKind.{HeadKind};
ghost use Rattle.ante_http.specs.declared.answer.CutAnswer.{CutAnswer};
ghost use Rattle.ante_http.specs.declared.answer.CutAnswer.TheVariants.{Need};
ghost use Rattle.ante_http.specs.Requests.{IsRequest, HasPartsWithin, IsBad, IsCut};

/// Bytes have one answer.
pub fn one_cut()
    ensures { (bytes : List ℕ) (one other : CutAnswer) → IsCut bytes one → IsCut bytes other → one ≡ other }
{}

/// A request is found whatever bytes come after it.
pub fn a_request_stays()
    ensures { (bytes more : List ℕ) (request : RequestSpan) (n : ℕ) → IsRequest bytes request n → IsRequest (bytes ++ more) request n }
{}

/// Bad bytes are Bad in the same way whatever bytes come after them.
pub fn bad_stays()
    ensures { (bytes more : List ℕ) (kind : HeadKind) (n : ℕ) → IsBad bytes kind n → IsBad (bytes ++ more) kind n }
{}

/// A request is found as soon as its bytes are there.
pub fn a_request_is_its_bytes()
    ensures { (bytes more : List ℕ) (request : RequestSpan) (n : ℕ) → n ≤ length bytes →
        IsRequest (bytes ++ more) request n → IsRequest bytes request n }
{}

/// Each front of a request that lacks a byte needs more.
pub fn fronts_need_more()
    ensures { (bytes more : List ℕ) (request : RequestSpan) (n : ℕ) → length bytes < n → IsRequest (bytes ++ more) request n → IsCut bytes Need }
{}

/// The parts of a request lie within its bytes, and the body is their end.
pub fn parts_lie_within()
    ensures { (bytes : List ℕ) (request : RequestSpan) (n : ℕ) → IsRequest bytes request n → HasPartsWithin bytes request n }
{}
