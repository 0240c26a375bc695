// What C gives by a flag and a value beside it.
ghost use Rattle.std.specs.Prelude.{◌≡◌, option_map};
ghost use Rattle.rules_server.specs.Asked.{modified_of};
ghost use Rattle.rules_server.specs.Status.{optional, optional_time};

use rules_server::LastModified;

// A header's value, where it is there.
pub fn optional_value(is_there: bool, value: &[u8]) -> Option<&[u8]>
    ensures { option_map (λ v. v.now) result ≡ optional is_there value.now }
{
    if is_there { Some(value) } else { None }
}

// A Last-Modified, where there is one.
pub fn optional_modified(is_there: bool, time: i64, strong: bool) -> Option<LastModified>
    ensures { modified_of result ≡ optional_time is_there time strong }
{
    if is_there {
        Some(LastModified { time, strong })
    } else {
        None
    }
}
