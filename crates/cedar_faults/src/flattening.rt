// Several parts together: all of them, or the faults of those that fail.
ghost use Rattle.cedar_faults.specs.Flat.{Flat, Flat3, Flat4};

use crate::errors::ConversionError;

/// Both, where both are there. Refused as the failing ones are together: for memory where one is, else with the
/// faults of all in order, else as the builder refuses the first that it refuses.
pub fn flatten_tuple_2<A: Drop, B: Drop, E: Drop>(
    first: Result<A, ConversionError<E>>,
    second: Result<B, ConversionError<E>>,
) -> Result<(A, B), ConversionError<E>>
    ensures { Flat first second result }
{
    match first {
        Ok(first) => match second {
            Ok(second) => Ok((first, second)),
            Err(error) => Err(error),
        },
        Err(error) => match second {
            Ok(_) => Err(error),
            Err(other) => Err(error.and(other)),
        },
    }
}

/// All three, where all are there; refused as [`flatten_tuple_2`] refuses.
pub fn flatten_tuple_3<A: Drop, B: Drop, C: Drop, E: Drop>(
    first: Result<A, ConversionError<E>>,
    second: Result<B, ConversionError<E>>,
    third: Result<C, ConversionError<E>>,
) -> Result<(A, B, C), ConversionError<E>>
    ensures { Flat3 first second third result }
{
    match flatten_tuple_2(first, second) {
        Ok((first, second)) => match third {
            Ok(third) => Ok((first, second, third)),
            Err(error) => Err(error),
        },
        Err(error) => match third {
            Ok(_) => Err(error),
            Err(other) => Err(error.and(other)),
        },
    }
}

/// All four, where all are there; refused as [`flatten_tuple_2`] refuses.
pub fn flatten_tuple_4<A: Drop, B: Drop, C: Drop, D: Drop, E: Drop>(
    first: Result<A, ConversionError<E>>,
    second: Result<B, ConversionError<E>>,
    third: Result<C, ConversionError<E>>,
    fourth: Result<D, ConversionError<E>>,
) -> Result<(A, B, C, D), ConversionError<E>>
    ensures { Flat4 first second third fourth result }
{
    match flatten_tuple_3(first, second, third) {
        Ok((first, second, third)) => match fourth {
            Ok(fourth) => Ok((first, second, third, fourth)),
            Err(error) => Err(error),
        },
        Err(error) => match fourth {
            Ok(_) => Err(error),
            Err(other) => Err(error.and(other)),
        },
    }
}
