//! The laws of the formats are calls that do nothing.

#[test]
fn the_laws_are_calls() {
    orc_rle::laws::runs_begin_no_other();
    orc_rle::laws::every_stream_is_decided();
    orc_rle::laws::bits_are_bits_of_bytes();
    orc_rle::laws::bytes_and_bits_only_end();
    orc_rle2::laws::runs_begin_no_other();
    orc_rle2::laws::every_stream_is_decided();
}
