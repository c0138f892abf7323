// Variable names by their length: where each stands in the run, in the run's order, and its code.
ghost use Rattle.std.specs.Prelude.{◌≡◌, ◌<◌, ◌≤◌, length};
ghost use Rattle.names.specs.Run.{run as variable_run};
ghost use Rattle.names.specs.Variables.{variable_code};

use crate::matching::among;

// Up to eight letters.
pub fn up_to_eight(run: &[u8], name: &[u8]) -> Option<u64>
    requires run { run.now ≡ variable_run }
    requires long { length name.now ≤ 8 }
    ensures { result ≡ variable_code name.now }
{
    match name.len() {
        // IP, TX
        2 => among(run, name, 2, &[(214, 38), (932, 35)]),
        // ENV, GEO, XML
        3 => among(run, name, 3, &[(95, 37), (189, 42), (947, 79)]),
        // ARGS, TIME, USER
        4 => among(run, name, 4, &[(0, 0), (859, 47), (943, 41)]),
        // FILES
        5 => among(run, name, 5, &[(98, 56)]),
        // GLOBAL
        6 => among(run, name, 6, &[(192, 39)]),
        // SESSION
        7 => among(run, name, 7, &[(841, 36)]),
        // ARGS_GET, DURATION, RESOURCE, TIME_DAY, TIME_MIN, TIME_MON, TIME_SEC
        8 => among(
            run,
            name,
            8,
            &[
                (22, 1),
                (87, 64),
                (673, 40),
                (863, 49),
                (890, 51),
                (898, 54),
                (906, 52),
            ],
        ),
        _ => None,
    }
}

// Nine to twelve.
pub fn of_nine_to_twelve(run: &[u8], name: &[u8]) -> Option<u64>
    requires run { run.now ≡ variable_run }
    requires long { (8 < length name.now) × (length name.now ≤ 12) }
    ensures { result ≡ variable_code name.now }
{
    match name.len() {
        // ARGS_POST, AUTH_TYPE, TIME_HOUR, TIME_WDAY, TIME_YEAR, UNIQUE_ID
        9 => among(
            run,
            name,
            9,
            &[
                (54, 2),
                (78, 85),
                (881, 50),
                (914, 53),
                (923, 55),
                (934, 61),
            ],
        ),
        // ARGS_NAMES, TIME_EPOCH
        10 => among(run, name, 10, &[(44, 3), (871, 48)]),
        // FILES_NAMES, FILES_SIZES, MATCHED_VAR, REMOTE_ADDR, REMOTE_HOST, REMOTE_PORT, REMOTE_USER, REQUEST_URI, SERVER_ADDR, SERVER_NAME, SERVER_PORT, STATUS_LINE
        11 => among(
            run,
            name,
            11,
            &[
                (122, 60),
                (133, 57),
                (216, 43),
                (329, 28),
                (340, 30),
                (351, 29),
                (362, 31),
                (647, 7),
                (808, 32),
                (819, 34),
                (830, 33),
                (848, 82),
            ],
        ),
        // FULL_REQUEST, MATCHED_VARS, QUERY_STRING, REQUEST_BODY, REQUEST_LINE
        12 => among(
            run,
            name,
            12,
            &[(158, 83), (227, 44), (317, 20), (486, 18), (605, 11)],
        ),
        _ => None,
    }
}

// Thirteen to seventeen.
pub fn of_thirteen_to_seventeen(run: &[u8], name: &[u8]) -> Option<u64>
    requires run { run.now ≡ variable_run }
    requires long { (12 < length name.now) × (length name.now ≤ 17) }
    ensures { result ≡ variable_code name.now }
{
    match name.len() {
        // REQBODY_ERROR, RESPONSE_BODY
        13 => among(run, name, 13, &[(373, 87), (681, 25)]),
        // ARGS_GET_NAMES, FILES_TMPNAMES, REQUEST_METHOD
        14 => among(run, name, 14, &[(30, 4), (144, 58), (617, 12)]),
        // ARGS_POST_NAMES, REQUEST_COOKIES, REQUEST_HEADERS, REQUEST_URI_RAW, RESPONSE_STATUS
        15 => among(
            run,
            name,
            15,
            &[(63, 5), (517, 16), (569, 14), (658, 8), (793, 21)],
        ),
        // HIGHEST_SEVERITY, MATCHED_VAR_NAME, REQUEST_BASENAME, REQUEST_FILENAME, REQUEST_PROTOCOL, RESPONSE_HEADERS
        16 => among(
            run,
            name,
            16,
            &[
                (198, 81),
                (257, 45),
                (470, 10),
                (553, 9),
                (631, 13),
                (738, 23),
            ],
        ),
        // REQBODY_ERROR_MSG, REQBODY_PROCESSOR, RESPONSE_PROTOCOL
        17 => among(run, name, 17, &[(386, 88), (403, 86), (776, 22)]),
        _ => None,
    }
}

// Eighteen and more.
pub fn of_eighteen_and_more(run: &[u8], name: &[u8]) -> Option<u64>
    requires run { run.now ≡ variable_run }
    requires long { 17 < length name.now }
    ensures { result ≡ variable_code name.now }
{
    match name.len() {
        // ARGS_COMBINED_SIZE, MATCHED_VARS_NAMES
        18 => among(run, name, 18, &[(4, 6), (239, 46)]),
        // FILES_COMBINED_SIZE, FULL_REQUEST_LENGTH, REQUEST_BODY_LENGTH
        19 => among(run, name, 19, &[(103, 59), (170, 84), (498, 19)]),
        // REQUEST_COOKIES_NAMES, REQUEST_HEADERS_NAMES, RESPONSE_CONTENT_TYPE
        21 => among(run, name, 21, &[(532, 17), (584, 15), (717, 26)]),
        // MULTIPART_PART_HEADERS, MULTIPART_STRICT_ERROR, RESPONSE_HEADERS_NAMES
        22 => among(run, name, 22, &[(273, 78), (295, 91), (754, 24)]),
        // REQBODY_PROCESSOR_ERROR, RESPONSE_CONTENT_LENGTH
        23 => among(run, name, 23, &[(420, 89), (694, 27)]),
        // REQBODY_PROCESSOR_ERROR_MSG
        27 => among(run, name, 27, &[(443, 90)]),
        _ => None,
    }
}
