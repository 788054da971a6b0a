// SHA-512 of four messages at once and SHA-1 of eight, and their HMACs: the first of each by the printed vectors, the others by `hashlib`
// and `hmac` of Python 3.
use crate::hex_text::is_hex_of;
use hash_lanes::{EightMacs, FourMacs, sha1_of_eight, sha512_of_four};

// FIPS 180-4, the example "abc", and "abd", "abe", "abf".
const DIGESTS: [&str; 4] = [
    "ddaf35a193617abacc417349ae20413112e6fa4e89a97ea20a9eeee64b55d39a2192992a274fc1a836ba3c23a3feebbd454d4423643ce80e2a9ac94fa54ca49f",
    "1a9840c27a5cf22dab060cdd8a83da2b0fbcb1aeb52d4f9d3894b639083e205a5ab3f6afaeeb21b8e99b5e0fe93daafaabeef274da5d6eadcc9db36e5b6f64c4",
    "5861a8e5b486be0c5c0295b5430f74d475564c5028bebad286e950ed6c7095d67d022ad4f9455df419296b4e76f3a8bc642afc57e9791874ed1072b45cbd65a7",
    "18e72269e80866e2f38c1b52192dd546ddb6e529f2595c230e9f6103d734c3e0b397d1bc28648bb60912b9176bc663a7ae4d45b49a2bb95bd79a3fd5059f31af",
];

#[test]
fn four_messages_have_digests_of_their_own(rt: HostRuntime) {
    let digests = sha512_of_four(b"abcabdabeabf", 3, 3);
    for (i, (text, digest)) in DIGESTS.iter().zip(digests.chunks_exact(64)).enumerate() {
        assert!(rt; is_hex_of(text, digest), "message {i}");
    }
}

// RFC 4231, section 4.2, "Hi There" under 20 bytes of 0x0b, and "Hi Where", "Hi Those", "Hi These".
const TAGS: [&str; 4] = [
    "87aa7cdea5ef619d4ff0b4241a1d6cb02379f4e2ce4ec2787ad0b30545e17cdedaa833b7d6b8a702038b274eaea3f4e4be9d914eeb61f1702e696c203a126854",
    "a689f89ff523278f581d33cca043d6e9a357afbe0f1f780f38ab1dfe883af9913df9e558d358e3f51df47b7a2fc74e53f842c19843b417779acb606d128040e4",
    "270d7abf7df2eff7fc599d0cdc617dc6f9c884c6cdae307a82ee7672441f24aac491c1ab0c1ae1b307121fe054ee0d91719d23014ced3370caa01bedf7f842fe",
    "1440f2b464aec4ceaea14c74d809342e834e629733a4738a3d76771c61ec30c95a5aaa3104b0e5d6fe2b5db1d2e6967439b4a610f772a810c8a2d1f657a530b0",
];

#[test]
fn four_messages_have_tags_of_their_own(rt: HostRuntime) {
    let macs = FourMacs::new(&[0x0b; 20]);
    let tags = macs.tags(b"Hi THi WHi THi T", 4, 4, b"hereherehosehese", 4);
    for (i, (text, tag)) in TAGS.iter().zip(tags.chunks_exact(64)).enumerate() {
        assert!(rt; is_hex_of(text, tag), "message {i}");
    }
}

// FIPS 180-4, the example "abc", and "abd" to "abj".
const SHA1_DIGESTS: [&str; 8] = [
    "a9993e364706816aba3e25717850c26c9cd0d89d",
    "cb4cc28df0fdbe0ecf9d9662e294b118092a5735",
    "c9a2a5540dcfc3ebad99e723223675d3f15edc54",
    "4d3ef0bbfc1daba1a476e2734d9776b811b812ef",
    "d1f85e55fba9f5b6db087e58762c7c8e370f6a57",
    "e0b5ccdc5ff9dc06cbc5b1664cf50ae29d296b82",
    "715a5d4d840064196cfa2f6763ef29067adb4d87",
    "4bfa459d998f7cce2263f00f1af699f6587ad4e3",
];

#[test]
fn eight_messages_have_digests_of_their_own(rt: HostRuntime) {
    let digests = sha1_of_eight(b"abcabdabeabfabgabhabiabj", 3, 3);
    for (i, (text, digest)) in SHA1_DIGESTS
        .iter()
        .zip(digests.chunks_exact(20))
        .enumerate()
    {
        assert!(rt; is_hex_of(text, digest), "message {i}");
    }
}

// RFC 2202, section 3, "Hi There" under 20 bytes of 0x0b, and "Hi Where", "Hi Those", "Hi These", "My Where", "My There", "My These",
// "My Those".
const SHA1_TAGS: [&str; 8] = [
    "b617318655057264e28bc0b6fb378c8ef146be00",
    "fce5c5a060c7c13a0e0f324cf0e09cf4d4f4691b",
    "cd665db88478d91b98f364171292f83147a78e8f",
    "897972eb4c4aac68a1276b497c6c1d1a84c7710b",
    "ab542df04ede78be640c5db1627393f7ed778e94",
    "a7c281c999cdab16ec635f20638f37b3e84e8055",
    "86cd6602cf2d758b3954fa3cfa7203fa8452d4dc",
    "827781580531c8a18df98f4919f67e99fdf8abd6",
];

#[test]
fn eight_messages_have_tags_of_their_own(rt: HostRuntime) {
    let macs = EightMacs::new(&[0x0b; 20]);
    let tags = macs.tags(
        b"Hi THi WHi THi TMy WMy TMy TMy T",
        4,
        4,
        b"hereherehosehesehereherehesehose",
        4,
    );
    for (i, (text, tag)) in SHA1_TAGS.iter().zip(tags.chunks_exact(20)).enumerate() {
        assert!(rt; is_hex_of(text, tag), "message {i}");
    }
}
