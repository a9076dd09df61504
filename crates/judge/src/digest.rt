// Digests as text: 64 hexadecimal digits.
ghost use Rattle.std.specs.Prelude.{◌≡◌, ◌↔◌, length, IsSome, IfSome};
ghost use Rattle.std.specs.List.{AllPass};
ghost use Rattle.hex.specs.Hex.{decode_of, is_hex_digit};

use hex::FromHex;

// The digest that the text writes, if it writes one.
pub fn digest_in(text: &str) -> Option<[u8; 32]>
    ensures value { IfSome result (λ digest. decode_of text.now ≡ Ok digest) }
    ensures found { IsSome result ↔ ((length text.now ≡ 64) × AllPass is_hex_digit text.now) }
{
    <[u8; 32] as FromHex>::from_hex(text).ok()
}
