// A row times a factor.
ghost use Rattle.std.specs.Prelude.{◌≡◌};
ghost use Rattle.areas.specs.Merging.{nonzero as row_unless_zero, product as product_of};

use refusals::Refusal;
use rings::Ring;
use rows::Row;

// The row of a key and a coefficient; none if the coefficient is zero.
pub(crate) fn nonzero<K: Ring>(key: u64, coefficient: K) -> Option<Row<K>>
    ensures { result ≡ row_unless_zero K.kind key coefficient }
{
    (!coefficient.is_zero()).then_some(Row { key, coefficient })
}

// A row times the factor, if there is one: keys added, coefficients multiplied. None if the product is zero.
pub(crate) fn product<K: Ring>(
    row: Row<K>,
    factor: Option<Row<K>>,
) -> Result<Option<Row<K>>, Refusal>
    ensures { result ≡ product_of K.kind factor row }
{
    match factor {
        Some(by) => {
            let coefficient = row.coefficient.times(by.coefficient)?;
            Ok(nonzero(row.key.wrapping_add(by.key), coefficient))
        }
        None => Ok(Some(row)),
    }
}
