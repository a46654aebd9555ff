//! The largest sizes: 64 controllers in one chain, and 128 names in a request.

pub(crate) const RISING_REQUESTS: &str = r#"<0..64 * c# inactive
>strict<0..64 *  +c#> => done;;<0..64 *  +c#>
best<0..64 *  +c#><0..64 *  +c#> => done dropped c0 twice<1..64 * , c# twice>;;<0..64 *  +c#>
best<1..64 *  +c#> => done dropped c1 missing_follower c0/j/position\
<1..63 * , c#' missing_follower c#/j/position>;;
strict<0..63 *  +c#'> => refused c1 missing_follower c0/j/position;;

<0..63 * c# chained
>c63 active
strict -c63 => done; -c63 -c62; +c62
strict -c0 => refused c1 missing_follower c0/j/position;;
best<0..63 *  -c#> => done dropped c0 missing_follower c0/j/position<1..63 * , c# missing_follower c#/j/position>;;"#;

pub(crate) const SINKING_REQUESTS: &str = r#"c0 active
<1..64 * c# chained
>strict<0..64 *  -c#> => done;<0..64 *  -c#>;
best<0..64 *  -c#> => done;<0..64 *  -c#>;
best<0..63 *  -c#> => done;<0..64 *  -c#>; +c63
strict -c63 +c63 => done; -c63; +c63

<0..64 * c# inactive
>best +c62 +c61 +c63 => done;; +c63 +c62 +c61"#;
