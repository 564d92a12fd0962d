//! The table of the functions that a host gives to contracts.
ghost use Rattle.std.specs.Prelude.{◌≡◌, ◌≢◌, ◌↔◌, ℕ, Option, map, slice_get, IsTrue, IfSome, IfNone};
ghost use Rattle.std.specs.Option.{option_map, option_copied};
ghost use Rattle.ante_wtree.specs.Intrinsics.{names, types, name_at, type_at};

use crate::instructions::ValueKind;

/// A function's name, parameters and result.
type Intrinsic = (&'static [u8], &'static [ValueKind], Option<ValueKind>);

const I: ValueKind = ValueKind::I32;

const L: ValueKind = ValueKind::I64;

static INTRINSICS: [Intrinsic; 88] = [
    (b"abort", &[], None),
    (b"eosio_exit", &[I], None),
    (b"eosio_assert", &[I, I], None),
    (b"eosio_assert_message", &[I, I, I], None),
    (b"eosio_assert_code", &[I, L], None),
    (b"current_receiver", &[], Some(L)),
    (b"get_sender", &[], Some(L)),
    (b"action_data_size", &[], Some(I)),
    (b"read_action_data", &[I, I], Some(I)),
    (b"transaction_size", &[], Some(I)),
    (b"read_transaction", &[I, I], Some(I)),
    (b"expiration", &[], Some(I)),
    (b"tapos_block_num", &[], Some(I)),
    (b"tapos_block_prefix", &[], Some(I)),
    (b"current_time", &[], Some(L)),
    (b"publication_time", &[], Some(L)),
    (b"require_auth", &[L], None),
    (b"require_auth2", &[L, L], None),
    (b"has_auth", &[L], Some(I)),
    (b"is_account", &[L], Some(I)),
    (b"is_privileged", &[L], Some(I)),
    (b"require_recipient", &[L], None),
    (b"send_inline", &[I, I], None),
    (b"prints", &[I], None),
    (b"prints_l", &[I, I], None),
    (b"printhex", &[I, I], None),
    (b"printi", &[L], None),
    (b"printui", &[L], None),
    (b"printn", &[L], None),
    (b"printi128", &[I], None),
    (b"printui128", &[I], None),
    (b"memcpy", &[I, I, I], Some(I)),
    (b"memmove", &[I, I, I], Some(I)),
    (b"memset", &[I, I, I], Some(I)),
    (b"memcmp", &[I, I, I], Some(I)),
    (b"sha256", &[I, I, I], None),
    (b"assert_sha256", &[I, I, I], None),
    (b"__multi3", &[I, L, L, L, L], None),
    (b"__divti3", &[I, L, L, L, L], None),
    (b"__udivti3", &[I, L, L, L, L], None),
    (b"__modti3", &[I, L, L, L, L], None),
    (b"__umodti3", &[I, L, L, L, L], None),
    (b"__ashlti3", &[I, L, L, I], None),
    (b"__ashrti3", &[I, L, L, I], None),
    (b"__lshlti3", &[I, L, L, I], None),
    (b"__lshrti3", &[I, L, L, I], None),
    (b"set_resource_limits", &[L, L, L, L], None),
    (b"set_action_return_value", &[I, I], None),
    (b"db_store_i64", &[L, L, L, L, I, I], Some(I)),
    (b"db_update_i64", &[I, L, I, I], None),
    (b"db_remove_i64", &[I], None),
    (b"db_get_i64", &[I, I, I], Some(I)),
    (b"db_next_i64", &[I, I], Some(I)),
    (b"db_previous_i64", &[I, I], Some(I)),
    (b"db_find_i64", &[L, L, L, L], Some(I)),
    (b"db_lowerbound_i64", &[L, L, L, L], Some(I)),
    (b"db_upperbound_i64", &[L, L, L, L], Some(I)),
    (b"db_end_i64", &[L, L, L], Some(I)),
    (b"db_idx64_store", &[L, L, L, L, I], Some(I)),
    (b"db_idx64_update", &[I, L, I], None),
    (b"db_idx64_remove", &[I], None),
    (b"db_idx64_next", &[I, I], Some(I)),
    (b"db_idx64_previous", &[I, I], Some(I)),
    (b"db_idx64_find_primary", &[L, L, L, I, L], Some(I)),
    (b"db_idx64_find_secondary", &[L, L, L, I, I], Some(I)),
    (b"db_idx64_lowerbound", &[L, L, L, I, I], Some(I)),
    (b"db_idx64_upperbound", &[L, L, L, I, I], Some(I)),
    (b"db_idx64_end", &[L, L, L], Some(I)),
    (b"db_idx128_store", &[L, L, L, L, I], Some(I)),
    (b"db_idx128_update", &[I, L, I], None),
    (b"db_idx128_remove", &[I], None),
    (b"db_idx128_next", &[I, I], Some(I)),
    (b"db_idx128_previous", &[I, I], Some(I)),
    (b"db_idx128_find_primary", &[L, L, L, I, L], Some(I)),
    (b"db_idx128_find_secondary", &[L, L, L, I, I], Some(I)),
    (b"db_idx128_lowerbound", &[L, L, L, I, I], Some(I)),
    (b"db_idx128_upperbound", &[L, L, L, I, I], Some(I)),
    (b"db_idx128_end", &[L, L, L], Some(I)),
    (b"db_idx256_store", &[L, L, L, L, I, I], Some(I)),
    (b"db_idx256_update", &[I, L, I, I], None),
    (b"db_idx256_remove", &[I], None),
    (b"db_idx256_next", &[I, I], Some(I)),
    (b"db_idx256_previous", &[I, I], Some(I)),
    (b"db_idx256_find_primary", &[L, L, L, I, I, L], Some(I)),
    (b"db_idx256_find_secondary", &[L, L, L, I, I, I], Some(I)),
    (b"db_idx256_lowerbound", &[L, L, L, I, I, I], Some(I)),
    (b"db_idx256_upperbound", &[L, L, L, I, I, I], Some(I)),
    (b"db_idx256_end", &[L, L, L], Some(I)),
];

fn rows() -> &'static [Intrinsic]
    ensures names { map (λ r. r.0.now) result.now ≡ names }
    ensures types { map (λ r. (r.1.now, r.2)) result.now ≡ types }
{
    &INTRINSICS
}

fn same(a: &[u8], b: &[u8]) -> bool
    ensures { IsTrue result ↔ (a.now ≡ b.now) }
{
    a == b
}

fn place_of(rows: &'static [Intrinsic], name: &[u8]) -> Option<usize>
    ensures found { IfSome result (λ at. slice_get (map (λ r. r.0.now) rows.now) at ≡ Some name.now) }
    ensures none { IfNone result ((at : ℕ) → slice_get (map (λ r. r.0.now) rows.now) at ≢ Some name.now) }
{
    for (at, row) in rows.iter().enumerate() {
        if same(row.0, name) {
            return Some(at);
        }
    }
    None
}

fn row_at(rows: &'static [Intrinsic], at: usize) -> Option<&'static Intrinsic>
    ensures { option_copied result ≡ slice_get rows.now at }
{
    rows.get(at)
}

/// The number of the function of this name, where there is one.
pub fn host_number(name: &[u8]) -> Option<u32>
    ensures { (number : ℕ) → (result ≡ Some number) ↔ (name_at number ≡ Some name.now) }
{
    match place_of(rows(), name) {
        Some(at) => Some(at as u32),
        None => None,
    }
}

/// The parameters and the result of the function of this number, where there is one.
pub fn host_type(number: u32) -> Option<(&'static [ValueKind], Option<ValueKind>)>
    ensures { option_map (λ t. (t.0.now, t.1)) result ≡ type_at number }
{
    match row_at(rows(), number as usize) {
        Some((_, params, result)) => Some((*params, *result)),
        None => None,
    }
}
