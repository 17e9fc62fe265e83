ghost use Rattle.std.specs.Prelude.{◌≡◌, ◌+◌, ◌<◌};

use db_base::ids::PageId;

/// The page with the next number.
pub(crate) fn page_behind(page: PageId) -> PageId
    requires { page < u64.MAX }
    ensures { result ≡ page + 1 }
{
    PageId::new(page.get() + 1).unwrap()
}
