//! What TOML writes another way, and which texts are no TOML.

/// Texts with other spellings, byte order marks and control characters, each read or refused.
pub(crate) const TEXTS: &str = "\"version\" = 1
'update_rate' = 1
cycles = 5
=> read

# a comment
version = 1 # one
update_rate = 1\r
cycles = 5
=> read

\u{feff}version = 1
update_rate = 1
cycles = 5
=> read

version = 1
update_rate = 1
cycles = 5
component = [{name = \"a\", kind = \"sensor\", joint = [{name = \"j\", vmax = 1}]}]
=> read

version = 1
update_rate = 1
cycles = 5
controller.name = \"c\"
=> bad_value controller

\"\" = 1
=> bad_key\x20

version = 1
version = 1
=> not_toml

version =
=> not_toml

version
=> not_toml

version = 1 update_rate = 1
=> not_toml

version = 01
=> not_toml

version = 1\r\\
=> not_toml

zzz = \"\u{1}\"
=> not_toml

zzz = 2000-02-30
=> not_toml

[component]
[[component]]
=> not_toml

 \u{feff}version = 1
=> not_toml";
