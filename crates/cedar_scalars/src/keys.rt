//! Longs as eight bytes that go as the longs do.
ghost use Rattle.std.specs.Prelude.{◌≡◌};
ghost use Rattle.cedar_scalars.specs.Keys.{key_of, number_in};

/// The key of a long: eight bytes, which are ordered as the longs are.
pub fn key_of(n: i64) -> [u8; 8]
    ensures { result ≡ key_of n }
{
    let risen = (i128::from(n) + 9_223_372_036_854_775_808) as u64;
    risen.to_be_bytes()
}

/// The long of a key. There is none exactly where the bytes aren't eight.
pub fn number_in(key: &[u8]) -> Option<i64>
    ensures { result ≡ number_in key.now }
{
    let Ok(bytes) = <[u8; 8]>::try_from(key) else {
        return None;
    };
    let risen = i128::from(u64::from_be_bytes(bytes));
    Some((risen - 9_223_372_036_854_775_808) as i64)
}
