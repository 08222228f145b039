//! Inputs and reports as JSON: worked rows, what is refused, and what the reader of JSON makes of
//! numbers, keys and texts.
use crate::rows::play_rows;
use crate::runs::play_words;

const TEXT: &str = "track 1\nnodes 2\nk 2\nedge 0 1 1\nsub 1\ncallers 1\nfind 1 0 0\n";

const JSON: &str =
    "{\"callers\":1,\"calls\":[[\"find\",1,0,0]],\"edges\":[[0,1,1]],\"k\":2,\"nodes\":2,\
        \"order\":[],\"subs\":[1],\"track\":1}\n";

const REPORT: &str = "{\"calls\":[{\"actor\":1,\"first\":0,\"from\":0,\"kind\":\"find\",\"last\":2,\
        \"level\":0,\"node\":1,\"number\":0,\"sub\":0,\"weight\":1}],\"order\":[1,1,1],\
        \"visits\":3}\n";

const PIECES: &str = "7 4096";

// All keys but `k`, whose value comes behind.
const BEFORE_K: &str =
    "{\"callers\":1,\"calls\":[[\"find\",1,0,0]],\"edges\":[[0,1,1]],\"nodes\":2,\"subs\":[1],\
        \"track\":1,\"k\":";

#[test]
fn written_as_json(rt: HostRuntime) {
    let input = TEXT.as_bytes();
    play_words(&rt, rt.alloc(), 0, "tojson", PIECES, input, 0, JSON);
    play_words(&rt, rt.alloc(), 1, "replayjson", PIECES, input, 0, REPORT);
}

#[test]
fn read_from_json(rt: HostRuntime) {
    let input = JSON.as_bytes();
    play_words(&rt, rt.alloc(), 0, "fromjson", PIECES, input, 0, TEXT);
    let rows = "\u{feff}{\"callers\":1,\"calls\":[[\"find\",1,0,0]],\"edges\":[[0,1,1]],\"k\":2,\
        \"nodes\":2,\"order\":[],\"subs\":[1],\"track\":1}\n>1 refused 0 json\n|\
        [>1 refused 0 json\n|\
        {}>1 refused 0 shape\n|\
        ^[*127>1 refused 0 json\n|";
    play_rows(&rt, rt.alloc(), "fromjson", PIECES, "", rows);
}

#[test]
fn numbers_from_json(rt: HostRuntime) {
    let rows = "2}>0 track 1\nnodes 2\nk 2\nedge 0 1 1\nsub 1\ncallers 1\nfind 1 0 0\n|\
        2,\"order\":[1]}>0 track 1\nnodes 2\nk 2\nedge 0 1 1\nsub 1\ncallers 1\nfind 1 0 0\n\
        order 1\n|\
        2,\"unknown\":1}>1 refused 0 shape\n|\
        0}>1 refused 3 form\n|\
        1000000000000000000}>1 refused 0 shape\n|\
        999999999999999999}>1 refused 3 too-large\n|\
        2.0}>1 refused 0 shape\n|\
        -0}>1 refused 0 shape\n|\
        18446744073709551616}>1 refused 0 shape\n|\
        1e400}>1 refused 0 json\n|\
        3,\"k\":2}>0 track 1\nnodes 2\nk 2\nedge 0 1 1\nsub 1\ncallers 1\nfind 1 0 0\n|";
    play_rows(&rt, rt.alloc(), "fromjson", PIECES, BEFORE_K, rows);
}

#[test]
fn other_texts(rt: HostRuntime) {
    play_words(
        &rt,
        rt.alloc(),
        0,
        "fromjson",
        PIECES,
        b"\xff",
        1,
        "refused 0 json\n",
    );
    let rows = "\"\\ud800\"}>1 refused 0 json\n|\
        \"\\ud83d\\ude00\"}>1 refused 0 shape\n|\
        2} }>1 refused 0 json\n|\
        [2]}>1 refused 0 shape\n|";
    play_rows(&rt, rt.alloc(), "fromjson", PIECES, BEFORE_K, rows);
    let rows = "[[[[[[[]]]]]]] >1 refused 0 shape\n|\
        {\"callers\":1,\"calls\":[],\"edges\":[],\"k\":2,\"nodes\":0,\"subs\":[1],\
        \"track\":1}>1 refused 2 form\n|";
    play_rows(&rt, rt.alloc(), "fromjson", PIECES, "", rows);
}
