//! Which texts are origins.

use std::alloc::Global;
use test_support::first_misshown;
use websocket_requests::is_origin;

/// Each row has a text, and whether it is an origin.
const TEXTS: &str = "
https://example.org -> origin
http://localhost -> origin
http://localhost:8080 -> origin
http://[::1]:8080 -> origin
https://xn--bcher-kva.example -> origin
https://my_host.example -> origin
moz-extension://0b3c4d5e-0000-4000-8000-1234567890ab -> origin
# No scheme, or no host.
null -> other
* -> other
example.org -> other
//example.org -> other
://example.org -> other
https: -> other
https:/ -> other
https:// -> other
https:/example.org -> other
file:/// -> other
# A browser sends no path, no user, no upper case, and no pattern.
https://example.org/ -> other
https://example.org?x -> other
https://example.org#x -> other
https://user@example.org -> other
https://Example.org -> other
Https://example.org -> other
https://*.example.org -> other
https://*:8080 -> other
*://example.org -> other
# A scheme begins with a letter, and has letters, digits, +, - and . only.
h2+-.://a -> origin
2h://a -> other
h_s://a -> other
# More than one, and spaces.
https://a.example,https://b.example -> other
https://a.example https://b.example -> other
";

fn shown(alloc: Global, text: &str) -> Option<String> {
    let word = if is_origin(text) { "origin" } else { "other" };
    String::from_str(alloc, word).ok()
}

#[test]
fn texts_of_origins(rt: HostRuntime) {
    let wrong = first_misshown(rt.alloc(), TEXTS, shown);
    assert!(rt; wrong.is_none(), "{wrong:?}");
    assert!(rt; !is_origin(""));
}
