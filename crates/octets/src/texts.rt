// The fixed byte strings: the server writes them, and the reader compares with them. Those that the documents spell stand in specs/Texts.antt of rules_server.
pub const CRLF: [u8; 2] = *b"\r\n";

pub const DASHES: [u8; 2] = *b"--";

pub const COLON_SPACE: [u8; 2] = *b": ";

pub const GET: [u8; 3] = *b"GET";

pub const HEAD: [u8; 4] = *b"HEAD";

pub const BYTES_UNIT: [u8; 6] = *b"bytes=";

// The unit of a Content-Range, with its space.
pub const BYTES_RANGE: [u8; 6] = *b"bytes ";

// What a status line begins with: the version and a space.
pub const VERSION: [u8; 9] = *b"HTTP/1.1 ";

pub const STATUS_200: [u8; 15] = *b"HTTP/1.1 200 OK";

pub const STATUS_206: [u8; 28] = *b"HTTP/1.1 206 Partial Content";

pub const STATUS_416: [u8; 34] = *b"HTTP/1.1 416 Range Not Satisfiable";

pub const ETAG: [u8; 4] = *b"ETag";

pub const LAST_MODIFIED: [u8; 13] = *b"Last-Modified";

pub const CONTENT_TYPE: [u8; 12] = *b"Content-Type";

pub const CONTENT_RANGE: [u8; 13] = *b"Content-Range";

pub const CONTENT_LENGTH: [u8; 14] = *b"Content-Length";

pub const TRANSFER_ENCODING: [u8; 17] = *b"Transfer-Encoding";

pub const DASH: [u8; 1] = *b"-";

pub const SLASH: [u8; 1] = *b"/";

pub const MULTIPART_TYPE: [u8; 20] = *b"multipart/byteranges";

// The name of a multipart's parameter, with its sign.
pub const BOUNDARY_PARAMETER: [u8; 9] = *b"boundary=";

// What the server writes before a value at once: a field's name, the colon, and what never changes of its value.
pub const LENGTH_FRONT: [u8; 16] = *b"Content-Length: ";

pub const RANGE_FRONT: [u8; 21] = *b"Content-Range: bytes ";

pub const UNSATISFIED_FRONT: [u8; 23] = *b"Content-Range: bytes */";

pub const MULTIPART_FRONT: [u8; 45] = *b"Content-Type: multipart/byteranges; boundary=";
