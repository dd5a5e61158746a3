//! Bytes in a line: two hexadecimal digits each, or `-` for none.

ghost use Rattle.std.specs.Prelude.{◌≡◌, ◌≤◌, ◌*◌, true, length, IfOk, IfErr};
ghost use Rattle.std.specs.List.{list_all};
ghost use Rattle.zt_text.specs.Numbers.{is_hex_digit};
ghost use Rattle.zt_text.specs.Bytes.{is_digits, bytes_of, hex_bytes, packet_bytes_of};
ghost use Rattle.zt_rows.specs.declared.refusals.Refusal.TheVariants.{OutOfMemory};

use crate::numbers::{hex_value, is_hex_digit};
use std::alloc::Global;
use std::marker::Model;
use zt_rows::{MESSAGE_BYTES, Refusal};

/// Bytes as the digits that write them, without memory of their own.
#[derive(Drop)]
pub struct Digits<'a> {
    digits: &'a [u8],
}

impl<'a> Model for Digits<'a> {
    ghost use Rattle.std.specs.Prelude.{◌≡◌, ℕ, List, true};
    ghost use Rattle.zt_text.specs.Bytes.{is_digits, hex_bytes};

    ghost Value = { List ℕ };

    ghost view = { λ d. hex_bytes d.digits.now };

    ghost invariant = { λ d. is_digits d.digits.now ≡ true };
}

impl<'a> Digits<'a> {
    /// Reads the digits of a field: two for each byte, or `-` for none. Returns `None` for anything else.
    #[tactic(auto, unfolding(crate::specs::Bytes::bytes_of, crate::specs::Bytes::hex_bytes))]
    pub fn of(field: &'a [u8]) -> Option<Digits<'a>>
        ensures { result ≡ bytes_of field.now }
    {
        if field == b"-".as_slice() {
            Some(Digits { digits: &[] })
        } else if !field.is_empty() && is_digits(field) {
            Some(Digits { digits: field })
        } else {
            None
        }
    }

    /// Copies the bytes to the heap. Its only error is `OutOfMemory`.
    #[tactic(auto, using(crate::proofs::ByteLemmas::digits_pairs, crate::proofs::ByteLemmas::digits_all, crate::proofs::ByteLemmas::length_hex_bytes), unfolding(crate::specs::Bytes::hex_bytes))]
    pub fn to_vec(&self, alloc: Global) -> Result<Vec<u8>, Refusal>
        ensures ok { IfOk result (λ bytes. bytes.items ≡ self.now) }
        ensures few { IfOk result (λ bytes. length bytes.items ≤ 65536) }
        ensures refused { IfErr result (λ refusal. refusal ≡ OutOfMemory) }
    {
        let Ok(mut bytes) = vec![in alloc; 0u8; self.digits.len() / 2] else {
            return Err(Refusal::OutOfMemory);
        };
        fill(self.digits, bytes.as_mut_slice());
        Ok(bytes)
    }
}

/// Reads the 32 bytes of a packet from a field of 64 digits. Returns `None` for anything else.
#[tactic(auto, using(crate::proofs::ByteLemmas::packet_read), unfolding(crate::specs::Bytes::packet_bytes_of))]
pub fn packet_bytes(field: &[u8]) -> Option<[u8; 32]>
    ensures { result ≡ packet_bytes_of field.now }
{
    if field.len() != 64 || !is_hexadecimal(field) {
        return None;
    }
    let mut bytes = [0u8; 32];
    fill(field, &mut bytes);
    Some(bytes)
}

/// Overwrites `bytes` with the bytes of these digits.
#[inline(always)]
fn fill(digits: &[u8], bytes: &mut [u8])
    requires pairs { length digits.now ≡ 2 * length bytes.old }
    requires all { list_all is_hex_digit digits.now ≡ true }
    ensures { bytes.new ≡ hex_bytes digits.now }
{
    for place in 0..bytes.len() {
        let high = hex_value(digits[2 * place]);
        let low = hex_value(digits[2 * place + 1]);
        bytes[place] = high * 16 + low;
    }
}

/// Whether these are pairs of digits, for at most as many bytes as a message can have.
fn is_digits(field: &[u8]) -> bool
    ensures { result ≡ is_digits field.now }
{
    field.len() % 2 == 0 && field.len() <= 2 * MESSAGE_BYTES && is_hexadecimal(field)
}

/// Whether each byte is a digit. It never stops early, so that many bytes are checked at once.
#[inline(always)]
fn is_hexadecimal(field: &[u8]) -> bool
    ensures { result ≡ list_all is_hex_digit field.now }
{
    let mut all = true;
    for byte in field {
        all = all & is_hex_digit(*byte);
    }
    all
}
